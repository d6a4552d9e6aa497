ghost use Rattle.std.specs.Prelude.{◌≡◌, IfOk};
ghost use Rattle.rvd_judge.specs.Batches.{enabled_in};
ghost use Rattle.rvd_machine.specs.Enabled.{is_on, switched};
ghost use Rattle.rvd_engine.specs.Inside.{enabled_of};

use rvd_ask::Analyzer;
use std::alloc::{AllocError, Global};

/// Which analyzers are enabled.
#[derive(Clone, Copy, Debug, PartialEq, Eq)]
pub struct Switches {
    /// The analyzer of flow.
    pub flow: bool,
    /// That of references.
    pub refs: bool,
    /// That of functions.
    pub funcs: bool,
    /// That of bodies.
    pub body: bool,
    /// That of strings.
    pub strings: bool,
}

impl Switches {
    /// All are enabled.
    pub(crate) const ALL: Switches = Switches {
        flow: true,
        refs: true,
        funcs: true,
        body: true,
        strings: true,
    };

    /// Whether an analyzer is enabled.
    pub fn is_on(self, analyzer: Analyzer) -> bool
        ensures { result ≡ is_on (enabled_of self) analyzer }
    {
        match analyzer {
            Analyzer::Flow => self.flow,
            Analyzer::Refs => self.refs,
            Analyzer::Funcs => self.funcs,
            Analyzer::Body => self.body,
            Analyzer::Strings => self.strings,
        }
    }

    /// The same with one analyzer enabled or disabled.
    pub(crate) fn switched(self, analyzer: Analyzer, on: bool) -> Switches
        ensures { enabled_of result ≡ switched (enabled_of self) analyzer on }
    {
        match analyzer {
            Analyzer::Flow => Switches { flow: on, ..self },
            Analyzer::Refs => Switches { refs: on, ..self },
            Analyzer::Funcs => Switches { funcs: on, ..self },
            Analyzer::Body => Switches { body: on, ..self },
            Analyzer::Strings => Switches {
                strings: on,
                ..self
            },
        }
    }

    /// The enabled analyzers by priority. Only want of memory refuses it.
    pub(crate) fn list(self, alloc: Global) -> Result<Vec<Analyzer>, AllocError>
        ensures { IfOk result (λ list. enabled_in list.items ≡ enabled_of self) }
    {
        let mut list = Vec::with_capacity(alloc, ANALYZERS.len())?;
        for analyzer in ANALYZERS {
            if self.is_on(analyzer) {
                list.push(analyzer)?;
            }
        }
        Ok(list)
    }
}

/// The analyzers by priority.
pub(crate) const ANALYZERS: [Analyzer; 5] = [
    Analyzer::Flow,
    Analyzer::Refs,
    Analyzer::Funcs,
    Analyzer::Body,
    Analyzer::Strings,
];
