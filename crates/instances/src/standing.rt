ghost use Rattle.std.proofs.Common.{arith, refl};
ghost use Rattle.maps.specs.Stored.{no_words};
ghost use Rattle.instances.specs.Marks.{same_standing, standing_brief, standing_said};

use maps::{Brief, Plain, Stored};

/// How an instance stands. It takes one byte: the address at which one waits is kept elsewhere.
#[derive(Clone, Copy)]
pub(crate) enum Standing {
    Ready,
    Running,
    Waiting,
    Done,
}

impl Stored for Standing {
    ghost brief_of = { standing_brief };

    ghost words_of = { no_words };

    ghost said = { standing_said };

    const MOST: usize = 0;

    ghost MOST = { 0 };

    fn brief(&self) -> Brief {
        let small = match self {
            Standing::Ready => 0,
            Standing::Running => 1,
            Standing::Waiting => 2,
            Standing::Done => 3,
        };
        Brief {
            number: 0,
            half: 0,
            small,
        }
    }

    fn write(&self, _out: &mut Vec<i64>) {}

    fn read(beside: Brief, _words: &[i64]) -> Standing {
        match beside.small {
            0 => Standing::Ready,
            1 => Standing::Running,
            2 => Standing::Waiting,
            _ => Standing::Done,
        }
    }

    ghost same = { same_standing };

    ghost short = { Prim.omega arith };
}

impl Plain for Standing {
    ghost plain = { refl };
}
