ghost use Rattle.std.specs.Prelude.{◌≡◌, ◌<◌, ◌≤◌, ◌++◌, [], ◌∷◌, ℕ, List, Option, length, IfOk, OnOk, OnErr};
ghost use Rattle.line_io.specs.Streams.{Rose, Takes, Puts, Appends, AppendsFront, AppendsPart};

/// A fault of the outside: a call of a source or a sink that did nothing.
#[derive(Clone, Copy, Debug, PartialEq, Eq)]
pub struct Failed;

/// Where bytes come from.
pub trait Source: Drop {
    /// The bytes that are left, where the source tells.
    ghost left: { Self → Option (List ℕ) };

    /// How often it has failed. At the last value of a u64 the count stays.
    ghost faults: { Self → ℕ };

    /// Places the next bytes at the front of `out`, and answers how many; 0 means the end of input.
    fn take(&mut self, out: &mut [u8]) -> Result<usize, Failed>
        requires { 0 < length out.old }
        ensures within { IfOk result (λ n. n ≤ length out.old) }
        ensures taken { IfOk result (λ n. Takes (left self.old) (left self.new) out.new n) }
        ensures kept { OnErr result (left self.new ≡ left self.old) }
        ensures later { faults self.old ≤ faults self.new }
        ensures cause { OnErr result (Rose (faults self.old) (faults self.new)) };
}

/// Where bytes go.
pub trait Sink: Drop {
    /// The bytes that it holds, where it tells.
    ghost held: { Self → Option (List ℕ) };

    /// How often it has failed. At the last value of a u64 the count stays.
    ghost faults: { Self → ℕ };

    /// Takes a front of at least one byte, and answers its length.
    fn put(&mut self, bytes: &[u8]) -> Result<usize, Failed>
        requires { 0 < length bytes.now }
        ensures within { IfOk result (λ n. n ≤ length bytes.now) }
        ensures some { IfOk result (λ n. 0 < n) }
        ensures put { IfOk result (λ n. Puts (held self.old) (held self.new) bytes.now n) }
        ensures kept { OnErr result (held self.new ≡ held self.old) }
        ensures later { faults self.old ≤ faults self.new }
        ensures cause { OnErr result (Rose (faults self.old) (faults self.new)) };
}

/// Writes all of the bytes, in as many calls as it takes. After a fault a front of them was written, and not all.
pub fn put_all<K: Sink>(sink: &mut K, bytes: &[u8]) -> Result<(), Failed>
    ensures ok { OnOk result (Appends (K.held sink.old) (K.held sink.new) bytes.now) }
    ensures err { OnErr result (AppendsPart (K.held sink.old) (K.held sink.new) bytes.now) }
    ensures later { K.faults sink.old ≤ K.faults sink.new }
    ensures cause { OnErr result (Rose (K.faults sink.old) (K.faults sink.new)) }
{
    let mut at = 0;
    while at < bytes.len() {
        match sink.put(&bytes[at..]) {
            Ok(n) => at += n,
            Err(fault) => return Err(fault),
        }
    }
    Ok(())
}

/// Writes the bytes and LF. After a fault a front of these was written, and not all.
pub fn put_line<K: Sink>(sink: &mut K, bytes: &[u8]) -> Result<(), Failed>
    ensures ok { OnOk result (Appends (K.held sink.old) (K.held sink.new) (bytes.now ++ 10 ∷ [])) }
    ensures err { OnErr result (AppendsPart (K.held sink.old) (K.held sink.new) (bytes.now ++ 10 ∷ [])) }
    ensures later { K.faults sink.old ≤ K.faults sink.new }
    ensures cause { OnErr result (Rose (K.faults sink.old) (K.faults sink.new)) }
{
    put_all(sink, bytes)?;
    put_all(sink, b"\n")
}

/// What is written in turn: nothing, these bytes and then those, and after a fault a front of them all. A count of
/// faults that rose since a moment rose since each earlier one.
pub fn writing_in_turn()
    ensures none { (old : Option (List ℕ)) → Appends old old [] }
    ensures then { (old mid new : Option (List ℕ)) (a b : List ℕ) →
        Appends old mid a → Appends mid new b → Appends old new (a ++ b) }
    ensures all { (old new : Option (List ℕ)) (a : List ℕ) → Appends old new a → AppendsFront old new a }
    ensures front { (old new : Option (List ℕ)) (a b : List ℕ) →
        AppendsFront old new a → AppendsFront old new (a ++ b) }
    ensures then_front { (old mid new : Option (List ℕ)) (a b : List ℕ) →
        Appends old mid a → AppendsFront mid new b → AppendsFront old new (a ++ b) }
    ensures part { (old new : Option (List ℕ)) (a : List ℕ) → AppendsPart old new a → AppendsFront old new a }
    ensures then_part { (old mid new : Option (List ℕ)) (a b : List ℕ) →
        Appends old mid a → AppendsPart mid new b → AppendsPart old new (a ++ b) }
    ensures rose { (first before now later : ℕ) →
        first ≤ before → Rose before now → now ≤ later → Rose first later }
{}
