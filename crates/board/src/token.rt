// The token of a lifted item, which has to be set or put back.
ghost use Rattle.std.specs.Prelude.{◌≡◌, true, false};

use model::BoardRefusal;

// Stands for an item that was lifted. It may end only once it is spent, and only a set or a back spends it. That it was
// spent is a field, and no state of the type, since the drop has to demand it: a rule of the project.
pub struct Token {
    item: u16,
    spent: bool,
}

impl Token {
    // The token of an item that was lifted just now.
    pub(crate) fn new(item: u16) -> Token
        ensures { result ≡ record { item = item; spent = false } }
    {
        Token { item, spent: false }
    }

    // The item that was lifted.
    pub fn item(&self) -> u16
        ensures { result ≡ self.now.item }
    {
        self.item
    }

    pub(crate) fn spend(mut self) {
        self.spent = true;
    }
}

impl Drop for Token {
    fn drop(self)
        requires { self.spent ≡ true }
    {
        let Token { item: _, spent: _ } = self;
    }
}

// Why a set was refused, and the token again.
pub struct Refused {
    pub why: BoardRefusal,
    pub token: Token,
}
