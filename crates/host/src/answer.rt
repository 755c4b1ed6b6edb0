// The values of a map and of a play, flat: an answer's status is 0, or the number of its refusal at the offset, with every value 0.
ghost use Rattle.std.specs.Prelude.{◌≡◌, Ok, Err};
ghost use Rattle.host.specs.Answer.{host_attributes, host_estimates};
ghost use Rattle.host.specs.Answer.{map_answer_of, play_answer_in, play_answer_refused, given_answer_of, listed_answer_of};

use estimates::calculator::Estimates;
use play_score::PlayScore;
use rules::refusal::Refusal;
use simulator::attributes::ScoreAttributes;

// Of the passed objects, or of all of a map.
#[repr(C)]
#[derive(Clone, Copy, Default)]
pub struct HostAttributes {
    pub object_count: u64,
    pub multiplier: u64,
    pub accuracy_score: u64,
    pub combo_score: u64,
    pub legacy_bonus_score: u64,
    pub standardised_bonus_score: u64,
    pub bonus_score_ratio: f64,
    pub nested_score_per_object: f64,
    pub max_combo: u32,
    pub n_circles: u32,
    pub n_sliders: u32,
    pub n_spinners: u32,
    pub n_repeats: u32,
    pub n_ticks: u32,
}

// An absent score-based estimate is 0.0 with a mark of 0.
#[repr(C)]
#[derive(Clone, Copy, Default)]
pub struct HostEstimates {
    pub accuracy: f64,
    pub combo_based: f64,
    pub score_based: f64,
    pub effective: f64,
    pub has_score_based: u8,
}

#[repr(C)]
#[derive(Clone, Copy, Default)]
pub struct MapAnswer {
    pub status: u8,
    pub offset: usize,
    pub attributes: HostAttributes,
}

#[repr(C)]
#[derive(Clone, Copy, Default)]
pub struct PlayAnswer {
    pub status: u8,
    pub offset: usize,
    pub attributes: HostAttributes,
    pub estimates: HostEstimates,
}

// No number of document 01: the file is accepted and has no play at the index.
const NO_PLAY: u8 = 255;

impl From<ScoreAttributes> for HostAttributes {
    ghost from_gives = { λ a r. r ≡ host_attributes a };

    fn from(a: ScoreAttributes) -> HostAttributes {
        HostAttributes {
            object_count: a.object_count,
            multiplier: a.multiplier,
            accuracy_score: a.legacy.accuracy_score,
            combo_score: a.legacy.combo_score,
            legacy_bonus_score: a.legacy.bonus_score.0,
            standardised_bonus_score: a.standardised_bonus_score.0,
            bonus_score_ratio: a.legacy.bonus_score_ratio,
            nested_score_per_object: a.difficulty.nested_score_per_object,
            max_combo: a.difficulty.max_combo,
            n_circles: a.difficulty.n_circles,
            n_sliders: a.difficulty.n_sliders,
            n_spinners: a.difficulty.n_spinners,
            n_repeats: a.difficulty.n_repeats,
            n_ticks: a.difficulty.n_ticks,
        }
    }
}

impl From<Estimates> for HostEstimates {
    ghost from_gives = { λ e r. r ≡ host_estimates e };

    #[tactic(auto, unfolding(numbers::proofs::Literals::of_bits, numbers::proofs::Literals::of_int))]
    fn from(e: Estimates) -> HostEstimates {
        let misses = e.score_based;
        HostEstimates {
            accuracy: e.accuracy,
            combo_based: e.combo_based,
            score_based: misses.unwrap_or(0.0),
            effective: e.effective,
            has_score_based: u8::from(misses.is_some()),
        }
    }
}

// The attributes of a map.
impl From<ScoreAttributes> for MapAnswer {
    ghost from_gives = { λ a r. r ≡ map_answer_of (Ok a) };

    fn from(a: ScoreAttributes) -> MapAnswer {
        MapAnswer {
            attributes: a.into(),
            ..MapAnswer::default()
        }
    }
}

impl From<Refusal> for MapAnswer {
    ghost from_gives = { λ refusal r. r ≡ map_answer_of (Err refusal) };

    #[tactic(auto, unfolding(numbers::proofs::Literals::of_bits, numbers::proofs::Literals::of_int))]
    fn from(refusal: Refusal) -> MapAnswer {
        MapAnswer {
            status: refusal.rule.into(),
            offset: refusal.offset,
            ..MapAnswer::default()
        }
    }
}

impl From<Result<ScoreAttributes, Refusal>> for MapAnswer {
    ghost from_gives = { λ score r. r ≡ map_answer_of score };

    fn from(score: Result<ScoreAttributes, Refusal>) -> MapAnswer {
        score.map_or_else(MapAnswer::from, MapAnswer::from)
    }
}

impl From<PlayScore> for PlayAnswer {
    ghost from_gives = { λ score r. r ≡ play_answer_in score };

    fn from(score: PlayScore) -> PlayAnswer {
        PlayAnswer {
            attributes: score.attributes.into(),
            estimates: score.estimates.into(),
            ..PlayAnswer::default()
        }
    }
}

// Of a play in a file, where it may have none at the index.
impl From<Option<PlayScore>> for PlayAnswer {
    ghost from_gives = { λ play r. r ≡ listed_answer_of (Ok play) };

    #[tactic(auto, unfolding(numbers::proofs::Literals::of_bits, numbers::proofs::Literals::of_int))]
    fn from(play: Option<PlayScore>) -> PlayAnswer {
        match play {
            Some(score) => score.into(),
            None => PlayAnswer {
                status: NO_PLAY,
                ..PlayAnswer::default()
            },
        }
    }
}

impl From<Refusal> for PlayAnswer {
    ghost from_gives = { λ refusal r. r ≡ play_answer_refused refusal };

    #[tactic(auto, unfolding(numbers::proofs::Literals::of_bits, numbers::proofs::Literals::of_int))]
    fn from(refusal: Refusal) -> PlayAnswer {
        PlayAnswer {
            status: refusal.rule.into(),
            offset: refusal.offset,
            ..PlayAnswer::default()
        }
    }
}

// Of a play that is given beside a file or a board.
impl From<Result<PlayScore, Refusal>> for PlayAnswer {
    ghost from_gives = { λ play r. r ≡ given_answer_of play };

    fn from(play: Result<PlayScore, Refusal>) -> PlayAnswer {
        play.map_or_else(PlayAnswer::from, PlayAnswer::from)
    }
}

// Of a play in a file.
impl From<Result<Option<PlayScore>, Refusal>> for PlayAnswer {
    ghost from_gives = { λ play r. r ≡ listed_answer_of play };

    fn from(play: Result<Option<PlayScore>, Refusal>) -> PlayAnswer {
        play.map_or_else(PlayAnswer::from, PlayAnswer::from)
    }
}
