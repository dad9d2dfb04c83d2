//! Laws of the spelling of data elements, for every value. They speak of no call: the contracts of
//! the calls tie these to the same definitions.

ghost use Rattle.sdp_elements.specs.Laws.{ReadsWhatIsSpelled, OneReading, WritesAForm, ReadsAgain, ReadsElementsAgain};

/// Reading gives an element within eight levels exactly where the octets begin with its spelling.
pub fn read_is_spelled()
    ensures { ReadsWhatIsSpelled }
{}

/// No octets begin with the spellings of two elements.
pub fn one_reading()
    ensures { OneReading }
{}

/// The shortest form of an element is one of its forms, whatever octets stand for its parts.
pub fn shortest_is_form()
    ensures { WritesAForm }
{}

/// What was written is read again: a tree in its shortest form, and an element with its parts in
/// whatever form they are lent.
pub fn written_is_read()
    ensures trees { ReadsAgain }
    ensures elements { ReadsElementsAgain }
{}
