// Names in a list.
ghost use Rattle.std.specs.Prelude.{◌≡◌};
ghost use Rattle.words.specs.Names.{place_of, names_in};

// Where the name first stands in the list.
pub fn find_name(names: &[&[u8]], name: &[u8]) -> Option<usize>
    ensures { result ≡ place_of 0 name.now (names_in names.now) }
{
    names.iter().position(|known| *known == name)
}
