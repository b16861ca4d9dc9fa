//! The spelling of sides and the reading of them are one.
ghost use Rattle.commit_journal.specs.Laws.{HeadersAreRead, RecordsAreRead, SidesAreRead, HeadersWereSpelled, RecordsWereSpelled, ShortRecordsStand, SidesWereSpelled};

/// What is spelled is read: a header, the records up to a closed gate, and two sides of which one counts.
pub fn what_is_spelled_is_read()
    ensures headers { HeadersAreRead }
    ensures records { RecordsAreRead }
    ensures sides { SidesAreRead }
{}

/// What is read was spelled so, and where a record is short, the records before it were.
pub fn what_is_read_was_spelled()
    ensures headers { HeadersWereSpelled }
    ensures records { RecordsWereSpelled }
    ensures short { ShortRecordsStand }
    ensures sides { SidesWereSpelled }
{}
