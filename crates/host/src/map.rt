// What a host is told of a map file before it scores it.
ghost use Rattle.std.specs.Prelude.{◌≡◌};
ghost use Rattle.host.specs.Map.{map_info_in, map_info_refused, map_info_of};

use map_file::file::Reader;
use records::beatmap::Settings;
use rules::refusal::Refusal;

// The status is 0, or the number of the refusal at the offset, with no value.
#[repr(C)]
#[derive(Clone, Copy, Default)]
pub struct MapInfo {
    pub status: u8,
    pub offset: usize,
    pub settings: Settings,
    pub breaks: u64,
    pub objects: u64,
}

impl From<Reader> for MapInfo {
    ghost from_gives = { λ reader r. r ≡ map_info_in reader };

    fn from(reader: Reader) -> MapInfo {
        MapInfo {
            settings: reader.settings,
            breaks: reader.counts.breaks,
            objects: reader.counts.objects,
            ..MapInfo::default()
        }
    }
}

impl From<Refusal> for MapInfo {
    ghost from_gives = { λ refusal r. r ≡ map_info_refused refusal };

    fn from(refusal: Refusal) -> MapInfo {
        MapInfo {
            status: refusal.rule.into(),
            offset: refusal.offset,
            ..MapInfo::default()
        }
    }
}

impl From<Result<Reader, Refusal>> for MapInfo {
    ghost from_gives = { λ answer r. r ≡ map_info_of answer };

    fn from(answer: Result<Reader, Refusal>) -> MapInfo {
        answer.map_or_else(MapInfo::from, MapInfo::from)
    }
}
