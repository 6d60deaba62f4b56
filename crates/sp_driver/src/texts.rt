// The texts of the files of a list, by their numbers.
ghost use Rattle.std.specs.Prelude.{◌≡◌};

use sp_load::Source;
use sp_unbuilt::Texts;

/// The texts of the files of a list.
#[derive(Clone, Copy)]
pub struct ListTexts<'l> {
    pub sources: &'l [Source],
}

impl<'l> Texts for ListTexts<'l> {
    ghost use Rattle.sp_driver.specs.Lists.{text_at};

    ghost texts = { λ l n. text_at l.sources.now n };

    fn text(&self, number: u32) -> &[u8] {
        match self.sources.get(number as usize) {
            Some(source) => source.text.as_slice(),
            None => b"",
        }
    }
}
