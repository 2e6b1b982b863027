// Records, logs, regions and models as document 01 writes them, with * for its ×; rows; and refusals in its words.
use crate::{FetchedRow, Log, Model, Record, Refusal, Region};
use std::error::Error;
use std::fmt;

// As (kind,position,removed,added).
impl fmt::Display for Record {
    fn fmt<W: fmt::Write>(&self, f: &mut fmt::Formatter<W>) -> fmt::Result {
        let kind = u64::from(self.kind);
        write!(
            f,
            "({},{},{},{})",
            kind, self.position, self.removed, self.added
        )
    }
}

// Its records, with a space before each.
impl fmt::Display for Log {
    fn fmt<W: fmt::Write>(&self, f: &mut fmt::Formatter<W>) -> fmt::Result {
        for x in self.records.iter().take(self.len as usize) {
            write!(f, " {}", x)?;
        }
        Ok(())
    }
}

// As start:node+offset*length.
impl fmt::Display for Region {
    fn fmt<W: fmt::Write>(&self, f: &mut fmt::Formatter<W>) -> fmt::Result {
        write!(
            f,
            "{}:{}+{}*{}",
            self.start, self.node, self.offset, self.length
        )
    }
}

// As total and regions, with a space before each region.
impl fmt::Display for Model {
    fn fmt<W: fmt::Write>(&self, f: &mut fmt::Formatter<W>) -> fmt::Result {
        write!(f, "total {} regions", self.published)?;
        for g in self.regions.iter().take(self.region_count as usize) {
            write!(f, " {}", g)?;
        }
        Ok(())
    }
}

// Each number with its name, and the two flags where they are set. Without a node the number is 0.
impl fmt::Display for FetchedRow {
    fn fmt<W: fmt::Write>(&self, f: &mut fmt::Formatter<W>) -> fmt::Result {
        write!(
            f,
            "parent entry {} index {}",
            self.parent_entry, self.index.0
        )?;
        write!(
            f,
            " entry {} count {} version {}",
            self.entry, self.count, self.version
        )?;
        if self.open {
            write!(f, " open")?;
        }
        if self.ongoing {
            write!(f, " ongoing")?;
        }
        write!(f, " node {}", self.node.unwrap_or(0))
    }
}

impl fmt::Display for Refusal {
    fn fmt<W: fmt::Write>(&self, f: &mut fmt::Formatter<W>) -> fmt::Result {
        match self {
            Refusal::UnsoundModel => write!(f, "the model isn't sound"),
            Refusal::UnreadableTable => write!(
                f,
                "the table has no entry, or no whole number of entries"
            ),
            Refusal::FilledCapture => write!(f, "the capture already has children"),
            Refusal::PastRows => write!(f, "the row number is at or past the row total"),
            Refusal::NothingBelow => write!(f, "nothing is below this row"),
            Refusal::NodesFull => write!(f, "one more node is needed, and all are in use"),
            Refusal::TooManyRows => write!(f, "there would be too many rows"),
            Refusal::WentBack => write!(f, "a visited item went back"),
            Refusal::RowOpen => write!(f, "the row is open"),
        }
    }
}

impl Error for Refusal {}
