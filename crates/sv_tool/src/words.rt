ghost use Rattle.std.specs.Prelude.{◌≡◌, ◌↔◌, [], ◌∷◌, ◌++◌, IsTrue, MatchOption, OnOk, OnErr};
ghost use Rattle.sv_tool.specs.Commands.{IsCommand, IsWordOf};

use std::alloc::Global;
use std::marker::Model;
use sv_value::NoMemory;

/// What a command line may ask for.
#[derive(Clone, Copy, Debug, PartialEq, Eq)]
pub enum Command {
    /// To make the steps of a document.
    Replay,
    /// To read a document, and say what it has or why it is refused.
    Check,
    /// To print what is known of a document's transactions before any run.
    Compile,
}

/// The words of a command line. Contracts see them as a list, each as its bytes.
#[derive(Debug, Drop)]
pub struct Words {
    alloc: Global,
    words: Vec<Vec<u8>>,
}

impl Model for Words {
    ghost use Rattle.std.specs.Prelude.{ℕ, List, map};

    ghost Value = { List (List ℕ) };

    ghost view = { λ words. map (λ word. word.items) words.words.items };
}

/// Whether the word has the bytes of the text.
#[tactic(auto, using(crate::proofs::WordLaws::words))]
fn is_word(word: &[u8], text: &str) -> bool
    ensures { IsTrue result ↔ (word.now ≡ text.now) }
{
    word == text.as_bytes()
}

impl Words {
    /// No words.
    pub fn new(alloc: Global) -> Words
        ensures { result ≡ [] }
    {
        Words {
            alloc,
            words: Vec::new(alloc),
        }
    }

    /// Appends a word; without memory the words stay as they were.
    pub fn push(&mut self, word: &str) -> Result<(), NoMemory>
        ensures ok { OnOk result (self.new ≡ self.old ++ word.now ∷ []) }
        ensures err { OnErr result (self.new ≡ self.old) }
    {
        self.words
            .push(Vec::from_slice(self.alloc, word.as_bytes())?)?;
        Ok(())
    }

    /// The command that the words are, if they are one.
    pub fn command(&self) -> Option<Command>
        ensures { MatchOption result (¬ IsCommand self.now) (λ command. IsWordOf command self.now) }
    {
        if self.is_only("replay") {
            return Some(Command::Replay);
        }
        if self.is_only("check") {
            return Some(Command::Check);
        }
        if self.is_only("compile") {
            return Some(Command::Compile);
        }
        None
    }

    /// Whether this is the only word.
    fn is_only(&self, word: &str) -> bool
        ensures { IsTrue result ↔ (self.now ≡ word.now ∷ []) }
    {
        match self.words.as_slice() {
            [only] => is_word(only, word),
            _ => false,
        }
    }
}
