// The levels of a board for a count of objects, and its places.
ghost use Rattle.std.specs.Prelude.{◌≡◌, ◌^◌, ◌≤◌};
ghost use Rattle.rules.specs.Limits.{max_levels, max_objects};
ghost use Rattle.tree.specs.Size.{levels_of};

use std::marker::Model;

// The size of a board: contracts see its levels. With l of them it has 2 ^ l places.
#[derive(Clone, Copy)]
pub struct Size {
    levels: usize,
    cap: usize,
}

impl Model for Size {
    ghost use Rattle.std.specs.Prelude.{ℕ, ◌≡◌, ◌≤◌, ◌^◌};
    ghost use Rattle.rules.specs.Limits.{max_levels};

    ghost Value = { ℕ };

    ghost view = { λ s. s.levels };

    ghost invariant = { λ s. (s.levels ≤ max_levels) × (s.cap ≡ 2 ^ s.levels) };

    ghost inverse = { λ l. record { levels = l; cap = 2 ^ l } };
}

impl Size {
    // The least with a place for each of so many objects.
    pub fn new(count: usize) -> Self
        requires { count ≤ max_objects }
        ensures { (result ≡ levels_of count) × (count ≤ 2 ^ result) }
    {
        if count <= 1 {
            return Size { levels: 0, cap: 1 };
        }
        let levels = (count - 1).ilog2() as usize + 1;
        Size {
            levels,
            cap: 1 << levels,
        }
    }

    pub fn levels(self) -> usize
        ensures { (result ≡ self) × (result ≤ max_levels) }
    {
        self.levels
    }

    // The places, C.
    pub fn cap(self) -> usize
        ensures { (result ≡ 2 ^ self) × (self ≤ max_levels) × (result ≤ max_objects) }
    {
        self.cap
    }
}
