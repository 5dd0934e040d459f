ghost use Rattle.std.specs.Prelude.{◌≡◌, ◌-◌, ◌++◌, length, take, drop, min};
ghost use Rattle.std.specs.Option.{option_copied};
ghost use Rattle.k_edge.specs.Files.{file_named, files_of};

/// The bytes of the first file of this name.
pub(crate) fn find_file<'a>(files: &'a [(String, Vec<u8>)], name: &str) -> Option<&'a [u8]>
    ensures { option_copied result ≡ file_named (files_of files.now) name.now }
{
    for (known, bytes) in files {
        if known.as_str() == name {
            return Some(bytes.as_slice());
        }
    }
    None
}

/// Copies as many bytes of `file` from `at` on as fit to the front of `buf`, and gives their number.
pub(crate) fn copy_piece(file: &[u8], at: u64, buf: &mut [u8]) -> usize
    ensures count { result ≡ min (length buf.old) (length file.now - at) }
    ensures copied { buf.new ≡ take result (drop at file.now) ++ drop result buf.old }
{
    let rest = match usize::try_from(at) {
        Ok(start) if start < file.len() => &file[start..],
        _ => &[],
    };
    let count = rest.len().min(buf.len());
    buf[..count].copy_from_slice(&rest[..count]);
    count
}
