// Texts that were made last, so that one that comes again is shared.
ghost use Rattle.std.specs.Prelude.{◌≡◌, IfOk};
ghost use Rattle.rsp_terms.specs.Terms.{xsd_string};

use crate::{Text, XSD_STRING};
use std::alloc::{AllocError, Global};

const PLACES: usize = 512;

const LONGEST: usize = 128;

const MULTIPLIER: u64 = 0x9E37_79B9_7F4A_7C15;

/// Makes texts, and keeps in each of 512 places, which a few bytes of a text tell, the last one that came twice in a row there. A
/// text that stands there is shared: it isn't made again, nor is its number. One of more than 128 bytes is never kept, so that the
/// table holds at most 256 KiB whatever comes.
#[derive(Drop)]
pub struct Texts {
    places: Vec<Place>,
    string: Option<Text>,
    keeps: bool,
    alloc: Global,
}

// What stands in a place: the text that was kept last, and what the last new one was told by. A text is kept as it comes again, so
// that those that come once take no place and are let go at once.
#[derive(Drop)]
struct Place {
    held: Option<Text>,
    last: u64,
}

impl Texts {
    /// A table in which nothing stands yet. Takes no memory.
    pub fn new(alloc: Global) -> Texts {
        Texts {
            places: Vec::new(alloc),
            string: None,
            keeps: true,
            alloc,
        }
    }

    /// A maker of texts that keeps none. Takes no memory.
    pub fn unkept(alloc: Global) -> Texts {
        Texts {
            places: Vec::new(alloc),
            string: None,
            keeps: false,
            alloc,
        }
    }

    /// The allocator that the texts are taken from.
    pub fn alloc(&self) -> Global {
        self.alloc
    }

    /// A text with these bytes. Fails only where memory is refused.
    pub fn text(&mut self, text: &str) -> Result<Text, AllocError>
        ensures { IfOk result (λ made. made ≡ text.now) }
    {
        if !self.keeps || LONGEST < text.len() {
            return Text::new(self.alloc, text);
        }
        if self.places.is_empty() {
            self.places = empty_places(self.alloc)?;
        }
        self.short_text(text)
    }

    fn short_text(&mut self, text: &str) -> Result<Text, AllocError>
        ensures { IfOk result (λ made. made ≡ text.now) }
    {
        let mixed = mixed_bytes(text.as_bytes());
        match self.places.get_mut((mixed >> 55) as usize) {
            None => Text::new(self.alloc, text),
            Some(place) => text_at(self.alloc, place, text, mixed),
        }
    }

    /// The text of `xsd:string`. Fails only where memory is refused.
    pub fn xsd_string(&mut self) -> Result<Text, AllocError>
        ensures { IfOk result (λ made. made ≡ xsd_string) }
    {
        if let Some(held) = &self.string {
            if held.as_str() == XSD_STRING {
                return held.share();
            }
        }
        let made = Text::new(self.alloc, XSD_STRING)?;
        if self.keeps {
            self.string = Some(made.share()?);
        }
        Ok(made)
    }
}

fn empty_places(alloc: Global) -> Result<Vec<Place>, AllocError> {
    let mut places = Vec::with_capacity(alloc, PLACES)?;
    for _ in 0..PLACES {
        places.push(Place {
            held: None,
            last: 0,
        })?;
    }
    Ok(places)
}

// What tells the place of a text: its length and its last bytes. Names that begin alike mostly differ there, and it costs less than
// the number of a text, which a text that is shared doesn't need again.
fn mixed_bytes(text: &[u8]) -> u64 {
    let mixed = last_bytes(text) ^ text.len() as u64;
    mixed.wrapping_mul(MULTIPLIER)
}

// the last eight bytes as one number, or all of a shorter text
fn last_bytes(text: &[u8]) -> u64 {
    if let [.., a, b, c, d, e, f, g, h] = text {
        let high = u32::from(*a) << 24 | u32::from(*b) << 16 | u32::from(*c) << 8 | u32::from(*d);
        let low = u32::from(*e) << 24 | u32::from(*f) << 16 | u32::from(*g) << 8 | u32::from(*h);
        return u64::from(high) << 32 | u64::from(low);
    }
    let mut all: u64 = 0;
    for byte in text {
        all = all << 8 | u64::from(*byte);
    }
    all
}

// the text that stands at a place if it has these bytes, else a new one, which stands there from now on if it came before
fn text_at(alloc: Global, place: &mut Place, text: &str, mixed: u64) -> Result<Text, AllocError>
    ensures { IfOk result (λ made. made ≡ text.now) }
{
    if let Some(held) = &place.held {
        if held.as_str() == text {
            return held.share();
        }
    }
    let made = Text::new(alloc, text)?;
    if place.last == mixed {
        place.held = Some(made.share()?);
    }
    place.last = mixed;
    Ok(made)
}
