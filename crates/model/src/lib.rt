// The tree list model: its nodes and regions, its change log, and what each operation answers.
//
// What the structs mean is in specs/, a file for each part of document 01.
#![tactic(auto)]

mod numbers;
mod words;

// The number of a row in the listing, and the number of a child below its parent. The two are never
// mixed: one becomes the other only through a region's start and offset.
#[derive(Clone, Copy, PartialEq, Eq, Default, Debug)]
pub struct RowNumber(pub u64);

#[derive(Clone, Copy, PartialEq, Eq, Default, Debug)]
pub struct ChildIndex(pub u64);

// The row total is at most this.
pub const ROW_LIMIT: u64 = 4_294_967_295;

// A node is in use while it is open or ongoing; node 0 is the capture. Numbers are plain, and bounded in clauses: a
// model that isn't sound may hold any.
#[derive(Clone, Copy, PartialEq, Eq, Default, Debug)]
pub struct Node {
    pub parent: u64,
    pub index: u64,
    pub entry: u64,
    pub direct: u64,
    pub total: u64,
    pub version: u64,
    pub open: bool,
    pub ongoing: bool,
}

// `length` rows from row `start` on: the children of `node` from index `offset` on.
#[derive(Clone, Copy, PartialEq, Eq, Default, Debug)]
pub struct Region {
    pub start: u64,
    pub node: u64,
    pub offset: u64,
    pub length: u64,
}

// Arrays in fixed places with a count beside them, passed by value: the form that document 01 names. The places past
// the count are part of what soundness says, so they are not hidden in a vector.
#[derive(Clone, Copy, Default)]
pub struct Model {
    pub nodes: [Node; 256],
    pub regions: [Region; 512],
    pub region_count: u64,
    pub published: u64,
}

// What a record says has changed: rows, or a row's text. A place of a log that is not in use is zero, of kind `Nothing`.
#[derive(Clone, Copy, PartialEq, Eq, Default, Debug)]
pub enum Kind {
    #[default]
    Nothing,
    Rows,
    Text,
}

#[derive(Clone, Copy, PartialEq, Eq, Default, Debug)]
pub struct Record {
    pub kind: Kind,
    pub position: u64,
    pub removed: u64,
    pub added: u64,
}

// What changed, in order: the first `len` of its places. The second struct of that form.
#[derive(Clone, Copy, Default)]
pub struct Log {
    pub records: [Record; 512],
    pub len: u64,
}

// A step of an update's visit of a node: the text of its row, or its growth.
#[derive(Clone, Copy, PartialEq, Eq, Debug)]
pub enum Step {
    Text(u64),
    Grow(u64),
}

// What a place that is not written to holds, in an array of steps.
impl Default for Step {
    ghost use Rattle.std.specs.Prelude.{◌≡◌};
    ghost use Rattle.model.specs.declared.Step.TheVariants.{Text};

    fn default() -> Step
        ensures { result ≡ Text 0 }
    {
        Step::Text(0)
    }
}

// What a fetch shows of a row, and the number of its node if it has one.
#[derive(Clone, Copy, PartialEq, Eq, Default, Debug)]
pub struct FetchedRow {
    pub parent_entry: u64,
    pub index: ChildIndex,
    pub entry: u64,
    pub count: u64,
    pub version: u64,
    pub open: bool,
    pub ongoing: bool,
    pub node: Option<u64>,
}

// Why a call is refused, in the order of document 01's numbers, from 1 on.
#[derive(Clone, Copy, PartialEq, Eq, Debug)]
pub enum Refusal {
    UnsoundModel,
    UnreadableTable,
    FilledCapture,
    PastRows,
    NothingBelow,
    NodesFull,
    TooManyRows,
    WentBack,
    RowOpen,
}

// A refused call hands the model back as it came. It stands first, as in the answers below, so that both arms of a
// `Result` hold it at one place: the native compiler takes minutes over a function that finds it at two.
#[derive(Clone, Copy)]
pub struct Refused {
    pub model: Model,
    pub refusal: Refusal,
}

// The answers of calls that are done.

// Of fetch.
#[derive(Clone, Copy)]
pub struct Fetched {
    pub model: Model,
    pub row: FetchedRow,
}

// Of open and of close.
#[derive(Clone, Copy)]
pub struct Changed {
    pub model: Model,
    pub log: Log,
}

// Of update: `ongoing` says whether the capture still is.
#[derive(Clone, Copy)]
pub struct Updated {
    pub model: Model,
    pub log: Log,
    pub ongoing: bool,
}
