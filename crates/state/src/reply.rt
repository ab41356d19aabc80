// What is replied to a chunk, and to a start.
ghost use Rattle.std.specs.Prelude.{◌≡◌};
ghost use Rattle.state.specs.Reply.{number_of, reply_flag, start_number};

// With each but the last: whether any non-ASCII byte has reached the places so far.
#[derive(Clone, Copy, PartialEq, Eq)]
pub enum Reply {
    Accepted(bool),
    Closed(bool),
    WrongLength(bool),
    TooLong(bool),
    NotInOrder,
}

impl Reply {
    // Its number in document 01.
    pub fn number(self) -> u8
        ensures { result ≡ number_of self }
    {
        match self {
            Reply::Accepted(_) => 0,
            Reply::Closed(_) => 1,
            Reply::WrongLength(_) => 2,
            Reply::TooLong(_) => 3,
            Reply::NotInOrder => 4,
        }
    }

    // Document 01 gives each reply its number and its flag, so each case has its own.
    pub fn flag(self) -> bool
        ensures { result ≡ reply_flag self }
    {
        match self {
            Reply::Accepted(flag) => flag,
            Reply::Closed(flag) => flag,
            Reply::WrongLength(flag) => flag,
            Reply::TooLong(flag) => flag,
            Reply::NotInOrder => false,
        }
    }
}

// To a start: it has set a bit that no place has, or not.
#[derive(Clone, Copy, PartialEq, Eq)]
pub enum StartReply {
    Accepted,
    NoSuchPlace,
}

impl StartReply {
    // Its number in document 02.
    pub fn number(self) -> u8
        ensures { result ≡ start_number self }
    {
        match self {
            StartReply::Accepted => 0,
            StartReply::NoSuchPlace => 12,
        }
    }
}
