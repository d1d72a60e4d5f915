use std::marker::Model;
use terms::Inst;

/// A claimed instance. To end it, to park it or to give it back consumes the task.
pub struct Task {
    pub(crate) inst: Inst,
}

impl Model for Task {
    ghost use Rattle.terms.specs.declared.name.Inst.{Inst as Instance};

    ghost Value = { Instance };

    ghost view = { λ t. t.inst };
}

impl Task {
    ghost use Rattle.std.specs.Prelude.{◌≡◌};

    /// Its instance.
    pub fn inst(&self) -> Inst
        ensures { result ≡ self.now }
    {
        self.inst
    }

    /// Consumes the task.
    pub(crate) fn into_inst(self) -> Inst
        ensures { result ≡ self }
    {
        let Task { inst } = self;
        inst
    }
}
