ghost use Rattle.std.specs.Prelude.{◌≡◌, [], ◌∷◌, reverse, OnOk, OnErr};
ghost use Rattle.sv_hub.specs.Extends.{Extends};

use std::alloc::Global;
use std::marker::Model;
use sv_hub::History;
use sv_value::NoMemory;

/// Who wrote a line, and how many the writer had written before.
#[derive(Clone, Copy, Debug, PartialEq, Eq)]
pub struct Line {
    pub writer: u8,
    pub number: u32,
}

/// A book, which lines are added to. Contracts see its title, a number, and its lines, the newest first.
#[derive(Drop)]
pub struct Book {
    title: u32,
    lines: Vec<Line>,
}

impl Model for Book {
    ghost use Rattle.std.specs.Prelude.{reverse};
    ghost use Rattle.sv_hub_trials.specs.Books.{BookSight};

    ghost Value = { BookSight };

    ghost view = { λ book. record { title = book.title; lines = reverse book.lines.items } };
}

impl History for Book {
    type Name = u32;

    type Item = Line;

    ghost name = { λ book. book.title };

    ghost past = { λ book. book.lines };
}

impl Book {
    /// A book with no line.
    pub fn new(alloc: Global, title: u32) -> Book
        ensures { result ≡ record { title = title; lines = [] } }
    {
        Book {
            title,
            lines: Vec::new(alloc),
        }
    }

    /// Adds a line. Without memory the book stands as before.
    #[tactic(auto, using(sv_hub::proofs::ExtendsLaws::extending))]
    pub fn write(&mut self, line: Line) -> Result<(), NoMemory>
        ensures ok { OnOk result (self.new ≡ record { title = self.old.title; lines = line ∷ self.old.lines }) }
        ensures err { OnErr result (self.new ≡ self.old) }
        ensures title { self.new.title ≡ self.old.title }
        ensures grows { Extends self.new.lines self.old.lines }
    {
        self.lines.reserve(1)?;
        self.lines.push_reserved(line);
        Ok(())
    }

    /// The lines, the oldest first.
    pub fn lines(&self) -> &[Line]
        ensures { reverse result.now ≡ self.now.lines }
    {
        self.lines.as_slice()
    }

    /// Who wrote the newest line.
    pub fn last_writer(&self) -> Option<u8> {
        self.lines.last().map(|line| line.writer)
    }
}
