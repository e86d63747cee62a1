ghost use Rattle.toml_places.specs.Places.{HeadersAreFrames, PlacesAreWithin};
ghost use Rattle.toml_places.specs.SpanReads.{SpansStand, SpansAreRead};

/// If a text is TOML and has a header `[[frame]]`, the array at `frame` has one element for each such header. So the k-th header
/// opens the k-th frame.
pub fn headers_are_frames()
    ensures { HeadersAreFrames }
{}

/// No place is past the end of its text.
pub fn places_are_within()
    ensures { PlacesAreWithin }
{}

/// Every span lies in its text, and has what the definition of its piece says.
pub fn spans_stand()
    ensures { SpansStand }
{}

/// Where toml's grammar reads a key, a value, an array or a string, what it reads in the span of a part of the key, of the value,
/// of an element or of a character is that part, value, element or character.
pub fn spans_are_read()
    ensures { SpansAreRead }
{}
