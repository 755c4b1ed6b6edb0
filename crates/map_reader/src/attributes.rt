// The attributes of a map's passed objects.
ghost use Rattle.std.specs.Prelude.{◌≡◌};
ghost use Rattle.map_reader.specs.Attributes.{last_start_of, drain_in, Complete, attributes_in};

use crate::map::Map;
use ruleset::score_multiplier::{DrainLen, break_len_in, drain_len};
use simulator::attributes::{ScoreAttributes, score_attributes_with};

// With no object passed, the first start is the last too.
fn last_start(map: Map) -> f64
    ensures { result ≡ last_start_of map }
{
    if map.passed.nested.object_count == 0 {
        map.first_start
    } else {
        map.passed.last_start
    }
}

#[tactic(auto, unfolding(crate::specs::Attributes::drain_in))]
fn drain_in(s: &[u8], map: Map) -> DrainLen
    ensures { result.seconds ≡ drain_in s.now map }
{
    // As in `board::read::drain_from`: a function for both would take a closure for the breaks, with its contract, to share this test.
    if map.objects == 0 {
        return DrainLen { seconds: 0 };
    }
    let last = last_start(map);
    drain_len(map.first_start, last, break_len_in(s, map.breaks, last))
}

// Of a map that stands at the begin of s.
#[tactic(auto, using(ruleset::proofs::Stars::settings_in_lem))]
pub fn attributes_of(s: &[u8], map: Map) -> ScoreAttributes
    requires { Complete map }
    ensures { result ≡ attributes_in s.now map }
{
    let settings = map.settings;
    let score = map.passed.score;
    let nested = map.passed.nested;
    score_attributes_with(settings, drain_in(s, map), score, nested)
}
