// The records of a file.
ghost use Rattle.std.specs.Prelude.{◌≡◌, ◌≤◌, ◌∷◌, length, Some};
ghost use Rattle.claimfile.specs.Kinds.{shape_of, front, later};
ghost use Rattle.claimfile.specs.Records.{Read, Formed, record_bytes};

use facts::Refusal;

// Where a record belongs: before the begin, which belongs there too, or after it.
#[derive(Clone, Copy, PartialEq, Eq, Debug)]
pub enum Stage {
    Literals,
    Steps,
}

// What a kind says of its record: where it belongs, and how many bytes its body has.
#[derive(Clone, Copy)]
pub struct Shape {
    pub stage: Stage,
    pub length: usize,
}

// A record: its kind where several kinds are alike, and its body, a part of the file. A kind stays the
// letter that the format has, a rule of this project: the code names what a reader of a dump sees.
#[derive(Clone, Copy)]
pub enum Record<'a> {
    Literal(char, &'a [u8]),
    Reading(&'a [u8]),
    Begin,
    Step(char, &'a [u8]),
}

impl Record<'_> {
    // How many bytes it has, with its kind.
    pub(crate) fn len(&self) -> usize
        requires { length (record_bytes self.now) ≤ usize.MAX }
        ensures { result ≡ length (record_bytes self.now) }
    {
        let body = match self {
            Record::Literal(_, body) | Record::Reading(body) | Record::Step(_, body) => body.len(),
            Record::Begin => 0,
        };
        1 + body
    }
}

// None where no record has this kind.
fn shape_of(kind: char) -> Option<Shape>
    ensures { result ≡ shape_of kind }
{
    let (stage, length) = match kind {
        'E' | 'D' => (Stage::Literals, 8),
        'G' | 'S' | 'Z' => (Stage::Literals, 24),
        'K' => (Stage::Literals, 3),
        'B' => (Stage::Literals, 0),
        'R' => (Stage::Steps, 5),
        'T' => (Stage::Steps, 3),
        'C' | 'Q' => (Stage::Steps, 4),
        'M' => (Stage::Steps, 6),
        'N' | 'Y' => (Stage::Steps, 2),
        'X' | 'O' | 'F' | 'I' | 'U' | 'P' => (Stage::Steps, 1),
        _ => return None,
    };
    Some(Shape { stage, length })
}

// A kind and its body as a record.
fn record_of(kind: char, body: &[u8]) -> Record<'_>
    ensures { (s : Shape) → shape_of kind ≡ Some s → length body.now ≡ s.length → Formed s.stage result × (record_bytes result ≡ kind ∷ body.now) }
{
    match kind {
        'E' | 'D' | 'G' | 'S' | 'Z' => Record::Literal(kind, body),
        'K' => Record::Reading(body),
        'B' => Record::Begin,
        _ => Record::Step(kind, body),
    }
}

// The record at the front of what is left of a file, unless nothing is left.
pub fn read(bytes: &[u8], stage: Stage) -> Result<Option<Record<'_>>, Refusal>
    ensures { Read stage bytes.now result }
{
    let Some((first, rest)) = bytes.split_first() else {
        return Ok(None);
    };
    let kind = char::from(*first);
    let shape = shape_of(kind).ok_or(Refusal::UnknownKind)?;
    let body = rest.get(..shape.length).ok_or(Refusal::BodyCutShort)?;
    if shape.stage != stage {
        return Err(Refusal::WrongStage);
    }
    Ok(Some(record_of(kind, body)))
}
