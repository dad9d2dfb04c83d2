//! The runs of words of a radio script.

ghost use Rattle.std.specs.Prelude.{◌≡◌, ◌≤◌, ◌<◌, ◌++◌, ◌∷◌, [], List, ℕ, Option, length, OnOk, OnErr};
ghost use Rattle.std.specs.List.{slice_get, AllByRecursion};
ghost use Rattle.push_script.specs.Runs.{IsRun};
ghost use Rattle.push_terms.specs.declared.word.Word.{Word};

use bt_base::NoMemory;
use push_terms::Word;
use std::alloc::Global;
use std::marker::Model;

/// Words of a radio script, each with how often it stands, in order. Each is as a line of a scenario
/// can say it.
#[derive(Drop)]
pub struct Runs {
    runs: Vec<(u32, Word)>,
}

impl Model for Runs {
    ghost Value = { List (ℕ × Word) };

    ghost view = { λ runs. runs.runs.items };

    ghost invariant = { λ runs. AllByRecursion IsRun runs.runs.items };
}

impl Runs {
    /// How many there are.
    pub fn len(&self) -> usize
        ensures count { result ≡ length self.now }
        ensures runs { AllByRecursion IsRun self.now }
    {
        self.runs.len()
    }

    /// The run at that place. It is `None` exactly where `i` is not below `len`.
    pub fn at(&self, i: usize) -> Option<(u32, Word)>
        ensures { result ≡ slice_get self.now i }
    {
        self.runs.get(i).copied()
    }

    /// No runs.
    pub(crate) fn new(alloc: Global) -> Runs
        ensures { result ≡ [] }
    {
        Runs {
            runs: Vec::new(alloc),
        }
    }

    /// Adds a run at the end.
    pub(crate) fn push(&mut self, count: u32, word: Word) -> Result<(), NoMemory>
        requires { IsRun (count, word) }
        ensures ok { OnOk result (self.new ≡ self.old ++ (count, word) ∷ []) }
        ensures err { OnErr result (self.new ≡ self.old) }
    {
        self.runs.push((count, word))?;
        Ok(())
    }

    pub(crate) fn as_slice(&self) -> &[(u32, Word)]
        ensures { result.now ≡ self.now }
    {
        &self.runs
    }
}
