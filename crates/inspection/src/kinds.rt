ghost use Rattle.std.specs.Prelude.{◌≡◌, ℕ, map, string_bytes, IfSome, Some};
ghost use Rattle.inspection.specs.declared.kinds.Kind.{Kind};
ghost use Rattle.inspection.specs.declared.kinds.Request.{Request};
ghost use Rattle.inspection.specs.Names.{word, number, Counts, Asks};
ghost use Rattle.inspection.specs.Refusals.{title};

/// The kinds of sheets; marks and rules are for a machine of so many states.
#[derive(Clone, Copy, PartialEq, Eq, Debug)]
pub enum Kind {
    Machine,
    Marks(u16),
    Rule(u16),
    Phases,
    Record,
}

/// What the words after the program's name ask for.
#[derive(Clone, Copy, PartialEq, Eq, Debug)]
pub enum Request {
    Help,
    Sheet(Kind),
}

/// The number of states that the digits write, if a machine can have so many.
fn states(digits: &str) -> Option<u16>
    ensures sound { IfSome result (Counts digits.now) }
    ensures complete { (n : ℕ) → Counts digits.now n → result ≡ Some n }
{
    digits.parse().ok().filter(|n| (1..=256).contains(n))
}

impl Kind {
    /// The kind of that name, with its number of states where it takes one.
    fn named(name: &str, count: Option<u16>) -> Option<Kind>
        ensures sound { IfSome result (λ kind. (name.now ≡ word kind) × (count ≡ number kind)) }
        ensures complete { (kind : Kind) → name.now ≡ word kind → count ≡ number kind → result ≡ Some kind }
    {
        match (name, count) {
            ("machine", None) => Some(Kind::Machine),
            ("marks", Some(n)) => Some(Kind::Marks(n)),
            ("rule", Some(n)) => Some(Kind::Rule(n)),
            ("phases", None) => Some(Kind::Phases),
            ("record", None) => Some(Kind::Record),
            _ => None,
        }
    }

    /// What the text of such a sheet begins with.
    pub(crate) fn title(self) -> &'static str
        ensures { result.now ≡ title self }
    {
        match self {
            Kind::Machine => "machine sheet",
            Kind::Marks(_) => "mark sheet",
            Kind::Rule(_) => "rule sheet",
            Kind::Phases => "phase table",
            Kind::Record => "controller record",
        }
    }
}

impl Request {
    /// What the words ask for, if they ask for anything.
    pub fn parse(words: &[String]) -> Option<Request>
        ensures sound { IfSome result (Asks (map string_bytes words.now)) }
        ensures complete { (request : Request) → Asks (map string_bytes words.now) request → result ≡ Some request }
    {
        let kind = match words {
            [name] if name.as_str() == "--help" => return Some(Request::Help),
            [name] => Kind::named(name.as_str(), None)?,
            [name, count] => Kind::named(name.as_str(), Some(states(count.as_str())?))?,
            _ => return None,
        };
        Some(Request::Sheet(kind))
    }
}
