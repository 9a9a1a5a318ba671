// Where the words of a grid stand in its table. Nothing else knows it.
ghost use Rattle.std.specs.Prelude.{◌≡◌};
ghost use Rattle.split_grid.specs.Words.{door_at, last_at};

/// The index of DOOR of this place. Doors are read far more often than written, so they stand side
/// by side.
pub fn door_word(place: u16) -> usize
    ensures { result ≡ door_at place }
{
    place as usize
}

/// The index of LAST of this place, in a grid of so many places.
pub fn last_word(places: u16, place: u16) -> usize
    ensures { result ≡ last_at places place }
{
    places as usize + place as usize
}
