// A lent buffer that is written from its front on.
ghost use Rattle.std.specs.Prelude.{◌≡◌, ◌∷◌, length};
ghost use Rattle.sheets.specs.Format.{two};
ghost use Rattle.sheets.specs.Tags.{tag_byte};
ghost use Rattle.writing.specs.Puts.{Room, Adds};

use sheets::tag::Tag;
use weights::kind::OrderedWeight;

// The first `len` bytes of `out` are written.
// The caller's buffer and how much of it is written: there is no heap.
#[derive(Drop)]
pub(crate) struct Front<'a> {
    pub(crate) out: &'a mut [u8],
    pub(crate) len: usize,
}

impl Front<'_> {
    // Puts some bytes behind those so far.
    pub(crate) fn put(&mut self, bytes: &[u8])
        requires room { Room (length bytes.now) self.old }
        ensures value { Adds bytes.now self.old self.new }
    {
        let end = self.len + bytes.len();
        self.out[self.len..end].copy_from_slice(bytes);
        self.len = end;
    }

    // Puts a number in two bytes, the high byte first.
    pub(crate) fn put_two(&mut self, number: u16)
        requires room { Room 2 self.old }
        ensures value { Adds (two number) self.old self.new }
    {
        self.put(&number.to_be_bytes());
    }

    // Puts the header of a record: its tag and the length of its value, the high byte first.
    pub(crate) fn put_header(&mut self, tag: Tag, size: u16)
        requires room { Room 3 self.old }
        ensures value { Adds (tag_byte tag ∷ two size) self.old self.new }
    {
        let [high, low] = size.to_be_bytes();
        self.put(&[tag.byte(), high, low]);
    }

    // Puts the bytes of a weight.
    pub(crate) fn put_weight<W: OrderedWeight>(&mut self, weight: &W)
        requires room { Room W.OrderedWeight.WIDTH self.old }
        ensures value { Adds (W.OrderedWeight.encoding weight.now) self.old self.new }
    {
        let end = self.len + W::WIDTH;
        weight.write(&mut self.out[self.len..end]).unwrap();
        self.len = end;
    }
}
