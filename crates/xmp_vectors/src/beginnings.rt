//! Beginnings of files, and how they are told apart.
use std::test::Fail;
use xmp_files::{Kind, kind_of};

/// Beginnings of files, each with the kind of the file.
const FILES: [(&[u8], Option<Kind>); 61] = [
    (b"\xFF\xD8", Some(Kind::Jpeg)),
    (
        b"\xFF\xD8\xFF\xE0\0\x10JFIF\0\x01\x01\0\0H\0H",
        Some(Kind::Jpeg),
    ),
    (b"\xFF", None),
    (b"\xFF\xD9", None),
    (b"\xD8\xFF", None),
    (b"\xFF\xFF\xD8", None),
    (b"II*\0\x08\0\0\0", Some(Kind::Tiff)),
    (b"MM\0*\0\0\0\x08", Some(Kind::Tiff)),
    (b"II*\0", Some(Kind::Tiff)),
    (b"II*", None),
    (b"II\0*", None),
    (b"MM*\0", None),
    (b"IM*\0", None),
    (b"II*\x01", None),
    (b"II,\0", None),
    (b"II+\0\x08\0\0\0", Some(Kind::BigTiff)),
    (b"MM\0+", Some(Kind::BigTiff)),
    (b"II\0+", None),
    (b"MM+\0", None),
    (b"RIFF\x04\0\0\0WEBP", Some(Kind::WebP)),
    (b"RIFF<<<<WEBPVP8X\n", Some(Kind::WebP)),
    (b"RIFF\x04\0\0\0WEB", None),
    (b"RIFF\x04\0\0\0WAVE", None),
    (b"RIFX\x04\0\0\0WEBP", None),
    (b"RIFF\0\x04\0\0\0WEBP", None),
    (b"RIFFWEBP", None),
    (b"8BPS\0\x01\0\0", Some(Kind::Psd)),
    (b"8BPS\0\x02", Some(Kind::Psd)),
    (b"8BPS\0\x03", None),
    (b"8BPS\0", None),
    (b"8BPS\x01\0", None),
    (b"8BIM\0\x01", None),
    (b"<", Some(Kind::Sidecar)),
    (b"<?xpacket begin=\"", Some(Kind::Sidecar)),
    (b"\t\n\r <", Some(Kind::Sidecar)),
    (b"\xEF\xBB\xBF<", Some(Kind::Sidecar)),
    (b"\xEF\xBB\xBF \n<", Some(Kind::Sidecar)),
    (b"\xFE\xFF", Some(Kind::Sidecar)),
    (b"\xFF\xFE<\0", Some(Kind::Sidecar)),
    (b"\xFE\xFF\0<", Some(Kind::Sidecar)),
    (b"               <", Some(Kind::Sidecar)),
    (b"\xEF\xBB\xBF            <", Some(Kind::Sidecar)),
    (b"                <", None),
    (b"\xEF\xBB\xBF             <", None),
    (b"", None),
    (b"\0", None),
    (b"\0<", None),
    (b"hello", None),
    (b"\xEF\xBB\xBF", None),
    (b"\xEF\xBB<", None),
    (b"\xEF\xBB\xBF\xEF\xBB\xBF<", None),
    (b" \xEF\xBB\xBF<", None),
    (b"\x0B<", None),
    (b"\x0C<", None),
    (b"\xC2\xA0<", None),
    (b"\xEF\xBB\xBF\xFE\xFF", None),
    (b" \xFF\xFE", None),
    (b"\xFE", None),
    (b"\xFF\xFD", None),
    (b" \xFF\xD8", None),
    (b" II*\0", None),
];

#[test]
fn files_are_told_apart(rt: HostRuntime) -> Result<(), Fail> {
    for (file, kind) in FILES {
        assert!(rt; kind_of(file) == kind, "{file:?}");
    }
    Ok(())
}
