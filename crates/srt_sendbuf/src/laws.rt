//! Facts about the definitions. Each function has an empty body: its contract is the fact.

ghost use Rattle.srt_sendbuf.specs.OneByOne.{ExpiryGoesOn, LostOneByOne, NewOneByOne, TimesGoOn};

/// The conditions on the times of `queue` and `expire` remain true as long as the times never decrease.
pub fn times()
    ensures queueing { TimesGoOn }
    ensures expiry { ExpiryGoesOn }
{}

/// Sending packets one by one, each by `next_due`, sends the lost numbers in order and then the new ones.
pub fn one_by_one()
    ensures lost_ones { LostOneByOne }
    ensures new_ones { NewOneByOne }
{}
