// What each instruction does, but for those whose arm of `step` is the operation itself.
ghost use Rattle.std.specs.Prelude.{◌≡◌, List, ◌++◌, ℕ, ◌+◌, ◌-◌, ◌≤◌, ◌<◌, length, take, drop, get_or};
ghost use Rattle.std.proofs.Math.Option.{some};
ghost use Rattle.edition.specs.Limits.{operand_depth, number_bound, ere_count};
ghost use Rattle.ere_meaning.specs.Tree.{Class, accepts, Ere};
ghost use Rattle.ere_meaning.specs.Search.{best_of};
ghost use Rattle.ere_exists.specs.Any.{is_match};
ghost use Rattle.ere_table.specs.Table.{table_words};
ghost use Rattle.splitting.specs.Separator.{Separator};
ghost use Rattle.separators.specs.Kinds.{Sized, Tells};
ghost use Rattle.image_format.specs.Image.{Constant};
ghost use Rattle.values.specs.Value.{Value, text_of, truth_of, truth_value};
ghost use Rattle.semantics.specs.World.{World, record_of, value_at};
ghost use Rattle.semantics.specs.Operations.{constant_value, get_field, print_values};
ghost use Rattle.run_room.specs.Layout.{slot_count, slots_end, base_end};
ghost use Rattle.run_room.specs.Room.{slot_at, slots_from, line_of, fields_of, Lined, store_of, with_slot};
ghost use Rattle.run_room.specs.Held.{Did};
ghost use Rattle.run_room.specs.declared.lines.Line.{Line};
ghost use Rattle.run_lines.specs.Records.{Safe, InForce, Leaves};
ghost use Rattle.run_input.specs.declared.beginning.Begun.{Begun};
ghost use Rattle.run_join.specs.Stores.{Stores};
ghost use Rattle.run_image.specs.Table.{Readable, Prepared};
ghost use Rattle.run_automata.specs.Automata.{automaton_in, Pooled};
ghost use Rattle.run_values.specs.Answers.{TruthBy};
ghost use Rattle.run_values.specs.declared.numbers.Truth.{Truth};
ghost use Rattle.run_operations.specs.Constants.{Fits, Decodes};
ghost use Rattle.run_operations.specs.Assigns.{Known, Assigns};
ghost use Rattle.run_match.specs.Marks.{Searches, Locates, marked_in};
ghost use Rattle.run_print.specs.Prints.{Writes, written, PrintedBy};
ghost use Rattle.std.specs.Prelude.{Result as Prints};
ghost use Rattle.run_step.specs.Machine.{kind_of, kind_in, advanced, advanced_unless, with_line, with_separator};
ghost use Rattle.run_step.specs.Machine.{with_last, section_by, ended_in, exited_in, branched_to, printed_to};

use crate::machine;
use crate::machine::{BEGIN, BETWEEN, FINISH, MAIN, Machine, TO_END, TO_RECORDS};
use edition::Edition;

// Pushes constant n.
pub fn push_constant(
    image: &[u8],
    constants: &[u64],
    work: &mut [u8],
    m: Machine,
    n: usize,
) -> Machine
    requires { (slots_end ≤ length work.old) × (m.depth < slot_count) × (m.at < 1024) × (n < length constants.now)
        × Fits image.now (get_or constants.now n 0) }
    ensures { (result ≡ advanced m (m.depth + 1))
        × ((l : Line) → Did work.old l work.new l
        (length work.new ≡ length work.old)
        ((s : Separator) (k : Constant) → Decodes image.now (get_or constants.now n 0) k
        → store_of work.new l s ≡ with_slot (store_of work.old l s) m.depth (constant_value k))) }
{
    let d = m.depth;
    run_operations::push_constant(work, image, constants[n], d);
    m.on(d + 1)
}

// Pushes variable v.
pub fn get_variable(work: &mut [u8], fs: &[u64], edition: Edition, m: Machine, v: usize) -> Machine
    requires { (base_end ≤ length work.old) × Lined m.line × Sized (kind_in m) fs.now
        × (m.records ≤ number_bound) × (operand_depth + v < slot_count) × (m.depth < slot_count) × (m.at < 1024) }
    ensures { (l : Line) × (result ≡ advanced (with_line m l) (m.depth + 1))
        × Did work.old m.line work.new l (Safe work.old work.new l)
        ((t : List ℕ) → Tells edition.number t fs.now (kind_in m)
        → (s : Separator) → InForce edition.number t m.line s
        → (w : World) → Known work.old m.line s m.records w → (b : Value)
        → value_at edition.number w v ≡ some b
        → (InForce edition.number t l s)
        × (store_of work.new l s ≡ with_slot (store_of work.old m.line s) m.depth b)) }
{
    let d = m.depth;
    let kind = machine::kind_of(m.separator);
    let line = run_operations::get_variable(work, fs, kind, edition, m.line, m.records, v, d);
    let r = m.with_line(line);
    r.on(d + 1)
}

// Sets variable v to the last operand, which stays.
pub fn set_variable(
    work: &mut [u8],
    fs: &mut [u64],
    edition: Edition,
    m: Machine,
    v: usize,
) -> Machine
    requires { (base_end ≤ length work.old) × Lined m.line × (length fs.old ≡ table_words)
        × (operand_depth + v < slot_count)
        × (1 ≤ m.depth) × (m.depth ≤ slot_count) × (m.at < 1024) }
    ensures { (l : Line) × (k : ℕ) × (result ≡ advanced (with_separator (with_line m l) k) m.depth)
        × Did work.old m.line work.new l
        ((Safe work.old work.new l) × (length fs.new ≡ table_words))
        (Assigns edition.number fs.old fs.new (kind_in m) (kind_of k)
        work.old work.new m.line l v (m.depth - 1)) }
{
    let d = m.depth;
    let kind = machine::kind_of(m.separator);
    let s = run_operations::set_variable(work, fs, kind, edition, m.line, v, d - 1);
    let next = s.kind;
    let separator = machine::word_of(next);
    let r = m.with_separator(s.line, separator);
    r.on(d)
}

// Replaces a field's number by the field.
pub fn get_field(work: &mut [u8], fs: &[u64], edition: Edition, m: Machine) -> Machine
    requires { (base_end ≤ length work.old) × Lined m.line × Sized (kind_in m) fs.now × (1 ≤ m.depth)
        × (m.depth ≤ slot_count)
        × (m.at < 1024) }
    ensures { (b : Begun) × (result ≡ advanced_unless (with_line m b.line) b.outcome m.depth)
        × Did work.old m.line work.new b.line
        (Safe work.old work.new b.line)
        ((t : List ℕ) → Tells edition.number t fs.now (kind_in m)
        → (s : Separator) → InForce edition.number t m.line s
        → (w : World) → w.current ≡ record_of (line_of work.old m.line)
        (fields_of work.old m.line s)
        → Leaves edition.number t s w work.old work.new m.line b.line (m.depth - 1)
        b.outcome
        (get_field (slot_at work.old (m.depth - 1)) w)) }
{
    let d = m.depth;
    let kind = machine::kind_of(m.separator);
    let l = run_records::load_field(work, fs, kind, edition, m.line, d - 1);
    let r = m.with_line(l.line);
    r.after(l.outcome, d)
}

// Sets a field, by its number, to the last operand, which is left.
pub fn set_field(work: &mut [u8], fs: &[u64], edition: Edition, m: Machine) -> Machine
    requires { (base_end ≤ length work.old) × Lined m.line × Sized (kind_in m) fs.now × (2 ≤ m.depth)
        × (m.depth ≤ operand_depth)
        × (m.at < 1024) }
    ensures { (b : Begun) × (result ≡ advanced_unless (with_line m b.line) b.outcome (m.depth - 1))
        × Stores edition.number fs.now (kind_in m) work.old work.new m.line
        b.line (m.depth - 2)
        b.outcome }
{
    let d = m.depth;
    let kind = machine::kind_of(m.separator);
    let l = run_join::store_field(work, fs, kind, edition, m.line, d - 2);
    let r = m.with_line(l.line);
    r.after(l.outcome, d - 1)
}

// Prints the last n operands.
pub fn print(work: &mut [u8], output: &mut [u8], m: Machine, n: usize) -> Machine
    requires { (slots_end ≤ length work.old) × (0 < n) × (n ≤ m.depth) × (m.depth ≤ slot_count)
        × (m.written ≤ length output.old)
        × (m.at < 1024) }
    ensures { (p : Prints ℕ ℕ) × (t : List ℕ) × (result ≡ printed_to m p (m.depth - n))
        × (output.new ≡ take m.written output.old ++ t)
        × ((l : Line) → Did work.old l work.new l
        ((length work.new ≡ length work.old)
        × (length t ≡ length (drop m.written output.old))
        × (written p ≤ length (drop m.written output.old)))
        (((s : Separator) → store_of work.new l s ≡ store_of work.old l s)
        × ((w : World) → Writes work.old (drop m.written output.old) w
        → PrintedBy w (drop m.written output.old) t p
        (print_values (slots_from (m.depth - n) n work.old) w)))) }
{
    let first = m.depth - n;
    let written = m.written;
    let p = run_print::print(work, first, n, &mut output[written..]);
    match p {
        Ok(k) => {
            let mut r = m;
            r.written = written + k;
            r.on(first)
        }
        Err(k) => m.stop(17),
    }
}

// Goes to instruction t unless the last operand, which is gone, is true.
pub fn jump_if_false(work: &[u8], m: Machine, t: usize) -> Machine
    requires { (slots_end ≤ length work.now) × (1 ≤ m.depth) × (m.depth ≤ slot_count) × (m.at < 1024) }
    ensures { (b : Truth) × (result ≡ branched_to m b.stop b.holds t (m.depth - 1))
        × TruthBy (truth_of (slot_at work.now (m.depth - 1))) b }
{
    let d = m.depth - 1;
    let b = run_values::is_true(work, d);
    if b.stop != 0 {
        return m.stop(b.stop);
    }
    let mut r = m.on(d);
    if !b.holds {
        r.at = t;
    }
    r
}

// Ends the section, or the record.
pub fn ends(section: usize, m: Machine) -> Machine
    ensures { result ≡ ended_in (section_by section) m }
{
    if section == BEGIN {
        return m.stop(TO_RECORDS);
    }
    if section == MAIN {
        return m.go_to(BETWEEN);
    }
    m.stop(0)
}

// Leaves for END, or ends the run.
pub fn exits(section: usize, m: Machine) -> Machine
    ensures { result ≡ exited_in (section_by section) m }
{
    if section < FINISH {
        return m.stop(TO_END);
    }
    m.stop(0)
}

// Compiles ERE n, unless its automaton has words or the shared table is that of it already; `last` is the ERE of the
// shared table, and so is the answer.
fn prepare_table(
    image: &[u8],
    eres: &[u32],
    edition: Edition,
    words: usize,
    shared: &mut [u64],
    last: usize,
    n: usize,
) -> usize
    requires { (length shared.old ≡ table_words)
        × ((xs : List (List ℕ)) × (Readable edition.number image.now eres.now xs) × (n < length xs)) }
    ensures { (length shared.new ≡ table_words) × (words ≡ 0 → result ≡ n)
        × ((xs : List (List ℕ)) → Readable edition.number image.now eres.now xs
        → Prepared edition.number xs shared.old last
        → Prepared edition.number xs shared.new result) }
{
    if words != 0 {
        return last;
    }
    run_image::prepare(image, eres, edition, shared, last, n)
}

// Replaces a value by whether its text has a match of ERE n: by its automaton, or else by the shared table.
pub fn matches(
    image: &[u8],
    eres: &[u32],
    edition: Edition,
    pool: &[u16],
    shared: &mut [u64],
    work: &mut [u8],
    m: Machine,
    n: usize,
) -> Machine
    requires { (slots_end ≤ length work.old) × (1 ≤ m.depth) × (m.depth ≤ slot_count) × (m.at < 1024)
        × (length shared.old ≡ table_words)
        × ((xs : List (List ℕ)) × (Readable edition.number image.now eres.now xs) × (n < length xs)
        × (Pooled edition.number xs pool.now)) }
    ensures { (k : ℕ) × (result ≡ advanced (with_last m k) m.depth)
        × (length (automaton_in pool.now n) ≡ 0 → k ≡ n)
        × ((xs : List (List ℕ)) → Readable edition.number image.now eres.now xs
        → Prepared edition.number xs shared.old m.last
        → Prepared edition.number xs shared.new k)
        × ((l : Line) → Did work.old l work.new l
        (length work.new ≡ length work.old)
        ((s : Separator) (e : Ere Class)
        → Searches (automaton_in pool.now n) shared.new e
        → store_of work.new l s
        ≡ with_slot (store_of work.old l s) (m.depth - 1)
        (truth_value (is_match (best_of accepts (text_of (slot_at work.old (m.depth - 1))) e))))) }
{
    let d = m.depth;
    let automaton = run_automata::automaton_of(pool, n);
    let mut r = m;
    r.last = prepare_table(image, eres, edition, automaton.len(), shared, m.last, n);
    run_match::matches(work, automaton, shared, d - 1);
    r.on(d)
}

// Replaces a value by the place of the leftmost longest match of ERE n: by its automata, or else by the shared table.
pub fn match_marked(
    image: &[u8],
    eres: &[u32],
    edition: Edition,
    pool: &[u16],
    shared: &mut [u64],
    work: &mut [u8],
    m: Machine,
    n: usize,
) -> Machine
    requires { (slots_end ≤ length work.old) × (1 ≤ m.depth) × (m.depth ≤ slot_count) × (m.at < 1024)
        × (length shared.old ≡ table_words)
        × ((xs : List (List ℕ)) × (Readable edition.number image.now eres.now xs) × (n < length xs)
        × (Pooled edition.number xs pool.now)) }
    ensures { (k : ℕ) × (result ≡ advanced (with_last m k) m.depth)
        × (length (automaton_in pool.now (ere_count + n)) ≡ 0 → k ≡ n)
        × ((xs : List (List ℕ)) → Readable edition.number image.now eres.now xs
        → Prepared edition.number xs shared.old m.last
        → Prepared edition.number xs shared.new k)
        × ((l : Line) → Did work.old l work.new l
        (length work.new ≡ length work.old)
        ((s : Separator) (e : Ere Class)
        → Locates (automaton_in pool.now (ere_count + n)) shared.new e
        → store_of work.new l s
        ≡ marked_in (store_of work.old l s) (m.depth - 1)
        (best_of accepts (text_of (slot_at work.old (m.depth - 1))) e))) }
{
    let d = m.depth;
    let automata = run_automata::automaton_of(pool, Edition::ERES + n);
    let mut r = m;
    r.last = prepare_table(image, eres, edition, automata.len(), shared, m.last, n);
    run_match::match_marked(work, automata, shared, d - 1);
    r.on(d)
}
