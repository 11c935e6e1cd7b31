//! Names that are called in parentheses, as in `(WINAPI *f)(`.
ghost use Rattle.std.specs.Prelude.{◌≡◌, true};
ghost use Rattle.cb_scan.specs.steps.wide.Called.{amount_after, call_of, enclosed_start};
ghost use Rattle.cb_scan.specs.steps.wide.Called.{next_calls, next_enclosed, no_calls};

use crate::rules::wide::ahead::second_is;
use crate::rules::wide::token::WideToken;

/// How many words and stars have come. A name alone in parentheses is another matter.
#[derive(Clone, Copy)]
pub(crate) enum Amount {
    Nothing,
    One,
    More,
}

/// The words and stars in parentheses so far: how many, the last of them if it is a name, and
/// whether there is a star.
#[derive(Clone, Copy)]
pub(crate) struct Enclosed {
    amount: Amount,
    last: Option<WideToken>,
    starred: bool,
}

/// A called name, and whether a `*` is before it.
#[derive(Clone, Copy)]
pub(crate) struct CalledName {
    pub name: WideToken,
    pub starred: bool,
}

/// What is known of the first called name of a part.
#[derive(Clone, Copy)]
pub(crate) struct Calls {
    enclosed: Option<Enclosed>,
    pub found: Option<CalledName>,
}

fn amount_after(amount: Amount) -> Amount
    ensures { result ≡ amount_after amount }
{
    match amount {
        Amount::Nothing => Amount::One,
        Amount::One | Amount::More => Amount::More,
    }
}

impl Enclosed {
    fn new() -> Enclosed
        ensures { result ≡ enclosed_start }
    {
        Enclosed {
            amount: Amount::Nothing,
            last: None,
            starred: false,
        }
    }

    /// After one more word or star.
    fn next(&mut self, item: &WideToken)
        ensures { self.new ≡ next_enclosed self.old item.now }
    {
        self.amount = amount_after(self.amount);
        if item.role.is_name() {
            self.last = Some(*item);
        } else {
            self.last = None;
        }
        self.starred = self.starred || item.role.is_sign(b'*');
    }

    /// The name that is called where another token comes: `)` and then `(`.
    fn call(&self, ahead: &[WideToken], item: &WideToken) -> Option<CalledName>
        ensures { result ≡ call_of self.now ahead.now item.now }
    {
        match (self.amount, self.last) {
            (Amount::More, Some(name)) if item.role.is_sign(b')') && second_is(ahead, b'(') => {
                Some(CalledName {
                    name,
                    starred: self.starred,
                })
            }
            _ => None,
        }
    }
}

impl Calls {
    pub(crate) fn new() -> Calls
        ensures { result ≡ no_calls }
    {
        Calls {
            enclosed: None,
            found: None,
        }
    }

    /// Nothing came.
    pub(crate) fn is_new(&self) -> bool
        ensures { result ≡ true → self.now ≡ no_calls }
    {
        self.enclosed.is_none() && self.found.is_none()
    }

    /// After the first of these tokens. The first `(` outside parentheses and brackets counts that
    /// leads to a name.
    #[inline(always)]
    pub(crate) fn add(&mut self, is_outer: bool, ahead: &[WideToken], item: &WideToken)
        ensures { self.new ≡ next_calls self.old is_outer ahead.now item.now }
    {
        if self.found.is_some() {
            return;
        }
        if is_outer && item.role.is_sign(b'(') {
            self.enclosed = Some(Enclosed::new());
        } else if let Some(enclosed) = &mut self.enclosed {
            if item.role.is_word() || item.role.is_sign(b'*') {
                enclosed.next(item);
            } else {
                self.found = enclosed.call(ahead, item);
                self.enclosed = None;
            }
        }
    }
}
