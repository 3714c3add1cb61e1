//! How many client numbers are few, as the law on few clients asks. The function is a law: its contract is the statement, and it does nothing. No
//! program stands on it.

ghost use Rattle.rows_computed.specs.Few.{FewAsk};

/// As many client numbers as there are sessions are few, and one more is not: 32 in version 1, 64 in version 2, and 32 where both are asked.
pub fn so_many_are_few()
    ensures { FewAsk }
{}
