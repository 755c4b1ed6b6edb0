// The objects of a map: circles, sliders and spinners.
// The nested items before a slider's tail, counted.
#[derive(Clone, Copy)]
pub struct Slider {
    pub repeats: u64,
    pub ticks: u64,
}

impl Slider {
    pub const MAX_NESTED: u64 = 1000;
}

#[derive(Clone, Copy)]
pub struct Spinner {
    pub duration: f64,
}

#[derive(Clone, Copy)]
pub enum HitObjectKind {
    Circle,
    Slider(Slider),
    Spinner(Spinner),
}

#[derive(Clone, Copy)]
pub struct HitObject {
    pub start_time: f64,
    pub kind: HitObjectKind,
}

impl HitObject {
    pub const MAX_COUNT: u64 = 8192;

    // The most legacy bonus of all objects.
    pub const MAX_BONUS: u64 = 2147483647;

    pub const CIRCLE_SIZE: usize = 10;

    // Before its nested items.
    pub const SLIDER_SIZE: usize = 12;

    pub const SPINNER_SIZE: usize = 18;
}
