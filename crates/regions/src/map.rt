// The regions of a model while rows are put in and taken out: a list of at most 512, in fixed places.

ghost use Rattle.std.specs.Prelude.{◌≡◌, ℕ, ◌+◌, ◌<◌, ◌≤◌, ◌^◌, List, length, take, set};
ghost use Rattle.model.specs.declared.Region.{Region};
ghost use Rattle.model.specs.Places.{region_places, pad};
ghost use Rattle.model.specs.Regions.{no_region};
ghost use Rattle.runs.specs.Edits.{map_from, insert_at, remove_at};
ghost use Rattle.runs.specs.Regions.{at, total};
ghost use Rattle.runs.specs.Changes.{merge, joined, moved, resized, split};
ghost use Rattle.runs.specs.Laid.{live, laid, Laid};

use model::{ChildIndex, Region};
use std::marker::Model;

// The first `count` places are in use, and the others are zero, which a vector would not say of what is past its end.
#[derive(Drop)]
pub struct RegionMap {
    regions: [Region; 512],
    count: usize,
}

impl Model for RegionMap {
    ghost Value = { List Region };

    ghost view = { λ q. take q.count q.regions };

    ghost invariant = { λ q. (q.count ≤ region_places) × (q.regions ≡ pad region_places no_region (take q.count q.regions)) };
}

// Two neighbours of one node as one region.
fn merge(a: Region, b: Region) -> Region
    requires { a.length + b.length < 2 ^ 64 }
    ensures { result ≡ merge a b }
{
    Region {
        length: a.length + b.length,
        ..a
    }
}

impl RegionMap {
    // The regions of a model.
    pub fn of(m: model::Model) -> RegionMap
        requires { Laid m }
        ensures { result ≡ live m }
    {
        let regions = m.regions;
        RegionMap {
            regions,
            count: m.region_count as usize,
        }
    }

    // The model with these regions.
    pub fn in_model(self, m: model::Model) -> model::Model
        ensures { result ≡ laid m self }
    {
        let regions = self.regions;
        model::Model {
            regions,
            region_count: self.count as u64,
            ..m
        }
    }

    // The regions from a place on start so many rows later and so many earlier, as the definition `moved` has it.
    pub fn move_starts(&mut self, place: usize, later: u64, earlier: u64)
        requires { (place ≤ length self.old) × ((k : ℕ) → place ≤ k → k < length self.old → ((at self.old k).start + later < 2 ^ 64) × (earlier ≤ (at self.old k).start + later)) }
        ensures { self.new ≡ map_from (moved later earlier) place self.old }
    {
        for g in &mut self.regions[place..self.count] {
            g.start = g.start + later - earlier;
        }
    }

    // One region more, at a place.
    pub fn insert_region(&mut self, place: usize, new: Region)
        requires { (place ≤ length self.old) × (length self.old < region_places) }
        ensures { self.new ≡ insert_at place new self.old }
    {
        self.regions.copy_within(place..self.count, place + 1);
        self.regions[place] = new;
        self.count += 1;
    }

    // One region less: the one at a place. The last place in use is zero again.
    pub fn remove_region(&mut self, place: usize)
        requires { place < length self.old }
        ensures { self.new ≡ remove_at place self.old }
    {
        self.regions.copy_within(place + 1..self.count, place);
        self.count -= 1;
        self.regions[self.count] = Region::default();
    }

    // The region at a place with another number of rows.
    pub fn resize_region(&mut self, place: usize, count: u64)
        requires { place < length self.old }
        ensures { self.new ≡ set self.old place (resized count (at self.old place)) }
    {
        // a borrow of the array keeps its length in view, for the index
        let regions = &mut self.regions;
        regions[place].length = count;
    }

    // The region at a place is cut after its child `last`, and `new` comes between the parts. A part without rows is not kept.
    pub fn split_parent(&mut self, place: usize, last: ChildIndex, new: Region)
        requires place_in_bounds { (place < length self.old) × (length self.old + 2 ≤ region_places) }
        requires place_bound { ((at self.old place).offset ≤ last.0) × (last.0 < (at self.old place).offset + (at self.old place).length) }
        requires place_bound_2 { ((at self.old place).offset + (at self.old place).length < 2 ^ 64) × (new.start + new.length < 2 ^ 64) }
        ensures { self.new ≡ split self.old place last.0 new }
    {
        let parent = self.regions[place];
        let next = last.0 + 1;
        let end = parent.offset + parent.length;
        self.resize_region(place, next - parent.offset);
        self.insert_region(place + 1, new);
        if next < end {
            let after = Region {
                start: new.start + new.length,
                offset: next,
                length: end - next,
                ..parent
            };
            self.insert_region(place + 2, after);
        }
    }

    // Neighbours of one node become one region: in a second list, each region joins the one before it or comes after it.
    // That list is an array and a count, as the places are that it becomes: a vector would be copied into them. The count
    // is of the regions written, not of those read.
    pub fn merge_regions(&mut self)
        requires { total self.old < 2 ^ 64 }
        ensures { self.new ≡ joined self.old }
    {
        let mut merged = [Region::default(); 512];
        let mut n: usize = 0;
        for g in &self.regions[..self.count] {
            if n > 0 && merged[n - 1].node == g.node {
                merged[n - 1] = merge(merged[n - 1], *g);
            } else {
                merged[n] = *g;
                n += 1;
            }
        }
        self.regions = merged;
        self.count = n;
    }
}
