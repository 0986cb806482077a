//! Laws of files, each the contract of a function that does nothing.

ghost use Rattle.jxl_lossless_laws.specs.Laws.{FilesHaveOnePicture, FilesWithPicturesAreDecoded, SameChannelsAreEqual};

/// A file has one picture: two that it has are the same in header, channels and profile.
pub fn a_file_has_one_picture()
    ensures { FilesHaveOnePicture }
{}

/// A file that has a picture is decoded, unless memory runs out, or its codestream has 2^61 bytes or more.
pub fn a_file_with_a_picture_is_decoded()
    ensures { FilesWithPicturesAreDecoded }
{}

/// Channels that are the same are equal, where each has one sample in each column of each row, as in each picture in
/// memory.
pub fn same_channels_are_equal()
    ensures { SameChannelsAreEqual }
{}
