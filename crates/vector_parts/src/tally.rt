// How many cases of each kind were compared, and how many of them differ.
ghost use Rattle.std.specs.Prelude.{◌≡◌, ◌+◌, min, length, cond, IfOk, vec_len};

use std::alloc::{AllocError, Global};
use std::{fmt, io};

#[derive(Clone, Copy, Debug, Default)]
pub struct Tally {
    pub compared: u64,
    pub differ: u64,
}

impl Tally {
    // One case more, up to the largest number.
    pub fn count(&mut self, is_same: bool)
        ensures { (self.new.compared ≡ min (self.old.compared + 1) u64.MAX)
            × (self.new.differ ≡ cond is_same self.old.differ (min (self.old.differ + 1) u64.MAX)) }
    {
        self.compared = self.compared.saturating_add(1);
        if !is_same {
            self.differ = self.differ.saturating_add(1);
        }
    }
}

impl fmt::Display for Tally {
    fn fmt<W: fmt::Write>(&self, f: &mut fmt::Formatter<W>) -> fmt::Result {
        let compared = self.compared;
        let differ = self.differ;
        write!(f, "{compared} compared, {differ} differ")
    }
}

// A row of a list with its tally.
#[derive(Clone, Copy, Debug)]
pub struct Row<'a> {
    pub name: &'a str,
    pub tally: Tally,
}

impl<'a> Row<'a> {
    fn new(name: &'a str) -> Row<'a> {
        let tally = Tally::default();
        Row { name, tally }
    }
}

impl fmt::Display for Row<'_> {
    fn fmt<W: fmt::Write>(&self, f: &mut fmt::Formatter<W>) -> fmt::Result {
        let name = self.name;
        let tally = self.tally;
        write!(f, "{name}: {tally}")
    }
}

// A tally for each row of a list, and that of all cases. The rows are a Vec: the borrow checker covers neither an array of rows
// whose length is a parameter, since they hold references, nor counting in rows that are lent.
#[derive(Debug, Drop)]
pub struct Tallies<'a> {
    pub rows: Vec<Row<'a>>,
    pub all: Tally,
}

impl<'a> Tallies<'a> {
    pub fn new(alloc: Global, names: &'a [&'a str]) -> Result<Tallies<'a>, AllocError>
        ensures { IfOk result (λ tallies. (vec_len tallies.rows ≡ length names.now)
            × (tallies.all.compared ≡ 0) × (tallies.all.differ ≡ 0)) }
    {
        Ok(Tallies {
            rows: names.iter().map(|name| Row::new(*name)).collect(alloc)?,
            all: Tally::default(),
        })
    }

    // One case more. Where it has no row it is counted among all alone.
    pub fn count(&mut self, row: Option<usize>, is_same: bool)
        ensures rows { vec_len self.new.rows ≡ vec_len self.old.rows }
        ensures all { (self.new.all.compared ≡ min (self.old.all.compared + 1) u64.MAX)
            × (self.new.all.differ ≡ cond is_same self.old.all.differ (min (self.old.all.differ + 1) u64.MAX)) }
    {
        if let Some(place) = row
            && let Some(row) = self.rows.get_mut(place)
        {
            row.tally.count(is_same);
        }
        self.all.count(is_same);
    }

    // A line for each row, and the line of all cases.
    pub fn print(&self, rt: &impl Print) -> io::Result<()> {
        for row in &self.rows {
            rt.println(row)?;
        }
        rt.println(self.all)
    }
}
