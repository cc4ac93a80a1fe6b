//! The elements of a list with commas.
ghost use Rattle.std.specs.Prelude.{◌≡◌, ◌∷◌, Some, position};
ghost use Rattle.std.specs.Option.{option_copied};
ghost use Rattle.std.specs.Iterator.{YieldsFirstRef, item_count};
ghost use Rattle.vx_modes.specs.Parse.{elements_of, is_comma};

/// Goes over the elements of a list, which commas separate. An empty list has one element, the empty one.
#[derive(Drop)]
pub struct Elements<'a> {
    rest: Option<&'a [u8]>,
}

impl<'a> Elements<'a> {
    pub fn new(list: &'a [u8]) -> Self
        ensures { option_copied result.rest ≡ Some list.now }
    {
        Elements { rest: Some(list) }
    }
}

impl<'a> Iterator for Elements<'a> {
    type Item = &'a [u8];

    ghost next_gives = { YieldsFirstRef (λ s. elements_of (option_copied s.rest)) };

    ghost remaining = { item_count (λ s. elements_of (option_copied s.rest)) };

    fn next(&mut self) -> Option<&'a [u8]> {
        match self.rest {
            Some(list) => {
                let (element, rest) = first_element(list);
                self.rest = rest;
                Some(element)
            }
            None => None,
        }
    }
}

/// The first element of a list, and what stands after its comma, if there is one.
fn first_element(list: &[u8]) -> (&[u8], Option<&[u8]>)
    ensures { elements_of (Some list.now) ≡ result.0.now ∷ elements_of (option_copied result.1) }
{
    match first_comma(list) {
        Some(at) => (&list[..at], Some(&list[at + 1..])),
        None => (list, None),
    }
}

fn first_comma(list: &[u8]) -> Option<usize>
    ensures { result ≡ position is_comma list.now }
{
    list.iter().position(|b| *b == b',')
}
