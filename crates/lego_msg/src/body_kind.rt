//! The names of the kinds of messages, as traces have them.

ghost use Rattle.std.specs.Prelude.{◌≡◌};
ghost use Rattle.lego_msg.specs.Kinds.{kind_of};

use crate::body::Body;

impl Body {
    /// The kind's name, without fields.
    pub fn kind(&self) -> &'static str
        ensures { result.now ≡ kind_of self.now }
    {
        match self {
            Body::Find { .. } => "Find",
            Body::Read { .. } => "Read",
            Body::Write { .. } => "Write",
            Body::LogWrite { .. } => "LogWrite",
            Body::Drain => "Drain",
            Body::SetHome { .. } => "SetHome",
            Body::SetAreas { .. } => "SetAreas",
            Body::GetAreas { .. } => "GetAreas",
            Body::Unmap { .. } => "Unmap",
            Body::CopySpace { .. } => "CopySpace",
            Body::DropSpace { .. } => "DropSpace",
            Body::FileRead { .. } => "FileRead",
            Body::FileWrite { .. } => "FileWrite",
            Body::FileCut { .. } => "FileCut",
            Body::PullMeta { .. } => "PullMeta",
            Body::PushMeta { .. } => "PushMeta",
            Body::PullPages { .. } => "PullPages",
            Body::PushImages { .. } => "PushImages",
            Body::ImageDrop { .. } => "ImageDrop",
            Body::ImageCopy { .. } => "ImageCopy",
            Body::ImageFree { .. } => "ImageFree",
            Body::PullImages { .. } => "PullImages",
            Body::ResetImages { .. } => "ResetImages",
            Body::FileSize { .. } => "FileSize",
            Body::NameGet { .. } => "NameGet",
            Body::NameMake { .. } => "NameMake",
            Body::NameCut { .. } => "NameCut",
            Body::NameAll => "NameAll",
            Body::FileFree { .. } => "FileFree",
            Body::Backup { .. } => "Backup",
            Body::BackedUp => "BackedUp",
            Body::BlockGet { .. } => "BlockGet",
            Body::BlockIs { .. } => "BlockIs",
            Body::BlockPut { .. } => "BlockPut",
            Body::BlockCut { .. } => "BlockCut",
            Body::OwnerIs { .. } => "OwnerIs",
            Body::Line { .. } => "Line",
            Body::Refused(_) => "Refused",
            Body::Wrote => "Wrote",
            Body::LogFull => "LogFull",
            Body::Drained => "Drained",
            Body::Done => "Done",
            Body::AreasAre { .. } => "AreasAre",
            Body::FileBytes { .. } => "FileBytes",
            Body::SizeIs { .. } => "SizeIs",
            Body::NameIs { .. } => "NameIs",
            Body::Names { .. } => "Names",
            Body::Meta { .. } => "Meta",
            Body::Images { .. } => "Images",
        }
    }
}
