// What a new term asks of an asset that owes and sells back award.
ghost use Rattle.std.specs.Prelude.{◌≡◌, ◌≤◌, neg_ℤ, ◌≤ℤ◌};
ghost use Rattle.payment.specs.Stand.{award_most};
ghost use Rattle.book.specs.Account.{EitherWay};
ghost use Rattle.book.specs.Close.{above_zero};
ghost use Rattle.book.specs.Entries.{invoice};
ghost use Rattle.book.specs.Limits.{balance_least};

// The part of what is owed that the fall from the last award to the new one comes to, rounded down.
pub(crate) fn invoice_of(last: i64, award: i64, carried: i64) -> u64
    requires { (EitherWay award_most last) × ((EitherWay award_most award) × (balance_least ≤ℤ carried)) }
    ensures value { result ≡ invoice last award carried }
    ensures bound { result ≤ above_zero (neg_ℤ carried) }
{
    if carried >= 0 || last <= 0 || award >= last {
        return 0;
    }
    let base = last.unsigned_abs();
    let fall = (last - award).unsigned_abs().min(base);
    carried.unsigned_abs() * fall / base
}
