// Constants, each decoded once for a run into a word: a number as its distance from the least one, or a text's place
// and size.
ghost use Rattle.std.specs.Prelude.{◌≡◌, ◌≤◌, ◌<◌, length};
ghost use Rattle.splitting.specs.Separator.{Separator};
ghost use Rattle.run_room.specs.Layout.{slot_count, slots_end};
ghost use Rattle.run_room.specs.Room.{store_of, with_slot};
ghost use Rattle.run_room.specs.Held.{Did};
ghost use Rattle.run_room.specs.declared.lines.Line.{Line};
ghost use Rattle.image_format.specs.Image.{Constant};
ghost use Rattle.semantics.specs.Operations.{constant_value};
ghost use Rattle.run_operations.specs.Constants.{Fits, Decodes};

// The first word of a text: 2^60, after all numbers.
pub const TEXTS: u64 = 1152921504606846976;

// Sets a slot to the constant of a word.
pub fn push_constant(work: &mut [u8], image: &[u8], word: u64, a: usize)
    requires { (slots_end ≤ length work.old) × (a < slot_count) × Fits image.now word }
    ensures { (l : Line) → Did work.old l work.new l
        (length work.new ≡ length work.old)
        ((s : Separator) (k : Constant) → Decodes image.now word k
        → store_of work.new l s ≡ with_slot (store_of work.old l s) a (constant_value k)) }
{
    if word < TEXTS {
        run_room::set_number(work, a, word);
        return;
    }
    let text = word - TEXTS;
    run_room::set_constant(
        work,
        a,
        image,
        (text / 65536) as usize,
        (text % 65536) as usize,
    );
}
