// The names of the example world.
ghost use Rattle.std.specs.Prelude.{◌≡◌};
ghost use Rattle.playthrough.specs.Names.{region_named, place_named, kind_named};

pub fn region_name(region: u8) -> &'static str
    ensures { result.now ≡ region_named region }
{
    match region {
        0 => "yard",
        1 => "cave",
        _ => "nowhere",
    }
}

pub fn place_name(place: usize) -> &'static str
    ensures { result.now ≡ place_named place }
{
    match place {
        0 => "well",
        1 => "shed",
        2 => "vault",
        _ => "nowhere",
    }
}

pub fn kind_name(code: u16) -> &'static str
    ensures { result.now ≡ kind_named code }
{
    match code {
        0 => "lamp",
        1 => "coin",
        3 => "sword",
        _ => "nothing",
    }
}
