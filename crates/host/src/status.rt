// What a call that writes to lent memory answers.
ghost use Rattle.std.specs.Prelude.{◌≡◌};
ghost use Rattle.host.specs.Status.{status_of, status_refused};

use rules::refusal::Refusal;

// 0, or the number of the refusal and its offset.
#[repr(C)]
#[derive(Clone, Copy, Default)]
pub struct Status {
    pub status: u8,
    pub offset: usize,
}

impl From<Refusal> for Status {
    ghost from_gives = { λ refusal r. r ≡ status_refused refusal };

    fn from(refusal: Refusal) -> Status {
        Status {
            status: refusal.rule.into(),
            offset: refusal.offset,
        }
    }
}

impl From<Result<(), Refusal>> for Status {
    ghost from_gives = { λ written r. r ≡ status_of written };

    fn from(written: Result<(), Refusal>) -> Status {
        written.map_or_else(Status::from, |()| Status::default())
    }
}
