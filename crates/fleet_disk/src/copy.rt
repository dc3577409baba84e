//! Bytes that are copied into a buffer.
ghost use Rattle.fleet_disk.specs.Rules.{IsRead};

// Copies the bytes from an offset on into the front of a buffer, and says how many.
pub fn copy_from(file: &[u8], at: usize, buf: &mut [u8]) -> usize
    ensures { IsRead file.now at result buf.old buf.new }
{
    if at >= file.len() {
        return 0;
    }
    let count = buf.len().min(file.len() - at);
    buf[..count].copy_from_slice(&file[at..at + count]);
    count
}
