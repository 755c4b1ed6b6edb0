// What stands before the objects of a map: the settings and the breaks.
ghost use Rattle.std.specs.Prelude.{◌≤◌};
ghost use Rattle.rules.specs.Limits.{max_breaks};

// As they cross to a host in C too.
#[repr(C)]
#[derive(Clone, Copy, Default)]
pub struct Settings {
    pub hp: f32,
    pub od: f32,
    pub cs: f32,
}

impl Settings {
    // The bytes of the record, its mark included; so in the other records.
    pub const SIZE: usize = 14;
}

#[derive(Clone, Copy)]
pub struct BreakPeriod {
    pub start_time: f64,
    pub end_time: f64,
}

impl BreakPeriod {
    pub const MAX_COUNT: u64 = 128;

    pub const SIZE: usize = 18;
}

// How many breaks a map has, which are no more than may be.
#[derive(Clone, Copy)]
pub struct BreakCount {
    pub count: u64,
    ghost few: { count ≤ max_breaks },
}
