// Translations, for C.
ghost use Rattle.std.specs.Prelude.{◌≡◌};
ghost use Rattle.edition.specs.Limits.{first_edition};
ghost use Rattle.translation.specs.Translation.{translate_of};

// Translates a filter text to an image, by the first edition.
#[unsafe(no_mangle)]
pub extern "C" fn flowawk_translate(text: &[u8], image: &mut [u8], place: &mut u64) -> u64
    ensures { record { outcome = result; place = place.new; room = image.new }
        ≡ translate_of first_edition text.now image.old }
{
    capi::flowawk_translate(text, image, place)
}
