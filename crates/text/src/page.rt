// A text in a lent space.
ghost use Rattle.std.specs.Prelude.{◌≡◌};
ghost use Rattle.text.specs.Pages.{front, put};

// The text ends at a place of the space. What does not fit is left out.
#[derive(Drop)]
pub struct Page<'a> {
    pub space: &'a mut [u8],
    pub at: usize,
}

impl<'a> Page<'a> {
    pub fn new(space: &'a mut [u8]) -> Page<'a>
        ensures { result ≡ front space.entry }
    {
        Page { space, at: 0 }
    }

    #[tactic(auto, using(crate::proofs::Copies::copied), unfolding(crate::specs::Space::behind))]
    pub fn put_text(&mut self, text: &[u8])
        ensures { self.new ≡ put self.old text.now }
    {
        let start = self.at.min(self.space.len());
        let count = text.len().min(self.space.len() - start);
        self.space[start..start + count].copy_from_slice(&text[..count]);
        self.at = start + count;
    }
}
