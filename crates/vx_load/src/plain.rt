//! Files with bytes.
ghost use Rattle.std.specs.Prelude.{◌≡◌, ◌≤◌, length, IfSome, None};
ghost use Rattle.vx_load.specs.Plain.{is_plain, has_none, ArePlain, IsHeldAt};

use vx_base::{ExtAttrs, FileKind, Ino, InodeValue};

/// The first file that has an extent, a byte or an attribute.
pub fn first_with_bytes(inodes: &[Option<InodeValue>]) -> Option<Ino>
    requires { length inodes.now ≤ 8192 }
    ensures some { IfSome result (IsHeldAt inodes.now) }
    ensures none { result ≡ None → ArePlain inodes.now }
{
    'inodes: for n in 0..inodes.len() {
        if !is_plain(&inodes[n]) {
            return Some(Ino::new(n as u32));
        }
    }
    None
}

/// Whether what stands there is no file with bytes.
fn is_plain(inode: &Option<InodeValue>) -> bool
    ensures { result ≡ is_plain inode.now }
{
    match inode {
        Some(value) => match value.inode.kind {
            FileKind::File => {
                value.extents == 0 && value.inode.size == 0 && has_none(&value.inode.attrs)
            }
            FileKind::Directory => true,
        },
        None => true,
    }
}

/// Whether no attribute is set.
fn has_none(attrs: &ExtAttrs) -> bool
    ensures { result ≡ has_none attrs.now }
{
    attrs.fixed == 0 && attrs.reserve == 0 && attrs.flags == 0
}
