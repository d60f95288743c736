//! What follows from the definitions of a record's body alone. A call of such a function costs nothing, and hands the
//! law to the caller's proof.

ghost use Rattle.epoch_record.specs.RoundTrip.{EveryEpochComesBack, EveryBodyComesBack};

/// Each epoch is decoded from its encoding, and each body from which an epoch is decoded is the encoding of that epoch.
pub fn round_trip()
    ensures epochs { EveryEpochComesBack }
    ensures bodies { EveryBodyComesBack }
{
    dp_base::laws::whole_values();
}
