// The numbers before the lists of an image.
ghost use Rattle.image_items.specs.Header.{HeaderAt};

// The numbers before the lists, and where these start.
#[derive(Drop)]
pub struct Header {
    pub edition: u64,
    pub users: u64,
    pub at: usize,
}

// Reads the numbers before the lists of an image.
pub fn header_of(image: &[u8]) -> Option<Header>
    ensures { HeaderAt image.now result }
{
    let Some((edition, behind)) = varint::take_number(image, 0) else {
        return None;
    };
    if !opcodes::known_edition(edition) {
        return None;
    }
    let Some((users, at)) = varint::take_number(image, behind) else {
        return None;
    };
    Some(Header { edition, users, at })
}
