// Matches of an ERE, by its automaton or its table.
ghost use Rattle.std.specs.Prelude.{◌≡◌, ◌^◌, ◌≤◌, ◌<◌, length};
ghost use Rattle.splitting.specs.Separator.{Separator};
ghost use Rattle.number.specs.Range.{top};
ghost use Rattle.run_room.specs.Layout.{slot_count, slots_end};
ghost use Rattle.run_room.specs.Room.{slot_at, store_of, with_slot};
ghost use Rattle.run_room.specs.Held.{Did};
ghost use Rattle.run_room.specs.declared.lines.Line.{Line};
ghost use Rattle.ere_meaning.specs.Tree.{Class, accepts, Ere};
ghost use Rattle.ere_meaning.specs.Search.{best_of};
ghost use Rattle.ere_table.specs.Table.{table_words};
ghost use Rattle.ere_exists.specs.Any.{is_match};
ghost use Rattle.ere_automaton.specs.Automaton.{Ranged};
ghost use Rattle.ere_automaton.specs.Follows.{SeekRanged};
ghost use Rattle.values.specs.Value.{text_of, truth_value};
ghost use Rattle.run_match.specs.Marks.{Searches, Told, Locates, FoundBy, marked_in, Marks};

// Tells whether a text has a match of an ERE: by its automaton, or where that is empty by its table.
fn has_match(d: &[u16], t: &[u64], text: &[u8]) -> bool
    requires { (0 < length d.now → Ranged d.now) × (length t.now ≡ table_words)
        × (length text.now < 2 ^ 63) }
    ensures { Told d.now t.now text.now result }
{
    if d.len() == 0 {
        return ere_exists::exists(t, text);
    }
    ere_automaton::exists(d, text)
}

// Replaces a value by whether its text has a match.
pub fn matches(work: &mut [u8], d: &[u16], t: &[u64], a: usize)
    requires { (slots_end ≤ length work.old) × (a < slot_count) × (0 < length d.now → Ranged d.now)
        × (length t.now ≡ table_words) }
    ensures { (l : Line) → Did work.old l work.new l
        (length work.new ≡ length work.old)
        ((s : Separator) (e : Ere Class) → Searches d.now t.now e
        → store_of work.new l s
        ≡ with_slot (store_of work.old l s) a
        (truth_value (is_match (best_of accepts (text_of (slot_at work.old a)) e)))) }
{
    let n = run_room::show(work, a);
    let from = a * run_room::SLOT + run_room::HEAD;
    let end = from + n;
    let b = has_match(d, t, &work[from..end]);
    run_values::set_truth(work, a, b);
}

// The slots of RSTART and RLENGTH.
pub const RSTART: usize = run_room::OPERANDS + 5;

pub const RLENGTH: usize = run_room::OPERANDS + 6;

// Sets RSTART and RLENGTH, and a slot to RSTART.
fn mark(work: &mut [u8], a: usize, start: u64, size: u64)
    requires { (slots_end ≤ length work.old) × (a < slot_count) × (start ≤ top) × (size ≤ top) }
    ensures { Marks work.old work.new a start size }
{
    run_room::set_number(work, RSTART, start);
    run_room::set_number(work, RLENGTH, size);
    run_room::set_number(work, a, start);
}

// Finds the leftmost longest match of an ERE in a text: by its automata, or where these are empty by its table.
fn find(d: &[u16], t: &[u64], text: &[u8]) -> Option<(usize, usize)>
    requires { (0 < length d.now → SeekRanged d.now) × (length t.now ≡ table_words)
        × (length text.now < 2 ^ 63) }
    ensures { FoundBy d.now t.now text.now result }
{
    if d.len() == 0 {
        return ere_search::find_from(t, text, 0, 0);
    }
    ere_seek::seek(d, text, 0, 0)
}

// Replaces a value by the place of the leftmost longest match in its text, which RSTART and RLENGTH say too.
pub fn match_marked(work: &mut [u8], d: &[u16], t: &[u64], a: usize)
    requires { (slots_end ≤ length work.old) × (a < slot_count) × (0 < length d.now → SeekRanged d.now)
        × (length t.now ≡ table_words) }
    ensures { (l : Line) → Did work.old l work.new l
        (length work.new ≡ length work.old)
        ((s : Separator) (e : Ere Class) → Locates d.now t.now e
        → store_of work.new l s
        ≡ marked_in (store_of work.old l s) a (best_of accepts (text_of (slot_at work.old a)) e)) }
{
    let n = run_room::show(work, a);
    let from = a * run_room::SLOT + run_room::HEAD;
    let end = from + n;
    match find(d, t, &work[from..end]) {
        Some((s, size)) => mark(
            work,
            a,
            number::ZERO + s as u64 + 1,
            number::ZERO + size as u64,
        ),
        None => mark(work, a, number::ZERO, number::ZERO - 1),
    }
}
