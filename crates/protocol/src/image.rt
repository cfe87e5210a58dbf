// What an image of a set of facts shows.
ghost use Rattle.std.specs.Prelude.{◌≡◌};
ghost use Rattle.protocol.specs.Shown.{shown};

// Whether the image shows the fact; of those past its end it shows none.
pub fn shows(image: &[u8], fact: u32) -> bool
    ensures { result ≡ shown image.now fact }
{
    image.get(fact as usize).is_some_and(|byte| *byte % 2 == 1)
}
