//! Laws of the bytes, as the clauses of functions that do nothing.
ghost use Rattle.salt_value.specs.RoundTrips as trips;

/// A law: numbers of up to 8 bytes that are written are read again, whatever follows them, and what is
/// read was written so. `F` is the type of the fault.
pub fn numbers_read_back<F>()
    ensures written { trips.AreNumbersRead F }
    ensures read { trips.AreNumbersWritten F }
{}

/// A law: texts that are written are read again, whatever follows them, and what is read was written
/// so. `F` is the type of the fault.
pub fn texts_read_back<F>()
    ensures written { trips.AreTextsRead F }
    ensures read { trips.AreTextsWritten F }
{}

/// A law: values within the limits that are written are read again, whatever follows them, and what
/// is read was written so.
pub fn values_read_back()
    ensures written { trips.AreValuesRead }
    ensures read { trips.AreValuesWritten }
{}

/// A law: no spelling of a value within the limits begins another one.
pub fn prefix_free()
    ensures { trips.AreSpellingsPrefixFree }
{}
