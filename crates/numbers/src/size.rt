// How many bytes a number has.
ghost use Rattle.std.specs.Prelude.{◌≡◌};
ghost use Rattle.numbers.specs.Numbers.{byte_count};

#[derive(Clone, Copy, PartialEq, Eq)]
pub enum Size {
    Four,
    Eight,
}

impl Size {
    pub fn bytes(self) -> u64
        ensures { result ≡ byte_count self }
    {
        match self {
            Size::Four => 4,
            Size::Eight => 8,
        }
    }
}
