// The steps of a closing or of an update, in order: at most 512, in fixed places, so that it can be copied.

ghost use Rattle.std.specs.Prelude.{◌≡◌, ◌<◌, ◌≤◌, ◌++◌, [], ◌∷◌};
ghost use Rattle.orders.specs.Order.{items, Holds};

// The first `len` of its places.
#[derive(Clone, Copy)]
pub struct Order<T> {
    pub steps: [T; 512],
    pub len: usize,
}

impl<T: Copy + Default> Order<T> {
    pub fn new() -> Order<T>
        ensures { Holds result [] }
    {
        Order {
            steps: [T::default(); 512],
            len: 0,
        }
    }

    // One step more, at the end.
    pub fn push(&mut self, step: T)
        requires { self.old.len < 512 }
        ensures { Holds self.new (items self.old ++ step ∷ []) }
    {
        self.steps[self.len] = step;
        self.len += 1;
    }

    pub fn as_slice(&self) -> &[T]
        requires { self.now.len ≤ 512 }
        ensures { result.now ≡ items self.now }
    {
        &self.steps[..self.len]
    }
}
