//! The rows of the tests.
use meta_config::RefreshMode;

/// Settings without properties, and what is answered of them.
pub const SETTINGS: &str = "instance of MSFT_DSCMetaConfiguration{};";

pub const USUAL: &str = "ApplyAndMonitor Push false ContinueConfiguration 15 30 false";

/// A download manager up to its names, and a partial configuration up to its name.
pub const DOWNLOAD: &str =
    "instance of MSFT_WebDownloadManager{ServerURL=\"http://h\";ConfigurationNames={";

pub const PARTIAL: &str =
    "instance of MSFT_PartialConfiguration{ResourceID=\"[PartialConfiguration]";

// Texts, and what is answered.
pub const SETTING_ROWS: &[(&'static str, &'static str)] = &[
    (
        "instance of MSFT_DSCMetaConfiguration{};",
        "ApplyAndMonitor Push false ContinueConfiguration 15 30 false",
    ),
    (
        "instance of MSFT_DSCMetaConfiguration{ConfigurationMode=NULL;RefreshMode=NULL;};",
        "ApplyAndMonitor Push false ContinueConfiguration 15 30 false",
    ),
    (
        "instance of MSFT_DSCMetaConfiguration{configurationmode=\"APPLYonly\";};",
        "ApplyOnly Push false ContinueConfiguration 15 30 false",
    ),
    (
        "instance of MSFT_DSCMetaConfiguration{ConfigurationMode=\"ApplyAndAutoCorrect\";RefreshMode=\"Pull\";};",
        "ApplyAndAutoCorrect Pull false ContinueConfiguration 15 30 false",
    ),
    (
        "instance of MSFT_DSCMetaConfiguration{RefreshMode=\"Disabled\";RebootNodeIfNeeded=TRUE;};",
        "ApplyAndMonitor Disabled true ContinueConfiguration 15 30 false",
    ),
    (
        "instance of MSFT_DSCMetaConfiguration{ActionAfterReboot=\"StopConfiguration\";AllowModuleOverwrite=true;};",
        "ApplyAndMonitor Push false StopConfiguration 15 30 true",
    ),
    (
        "instance of MSFT_DSCMetaConfiguration{ConfigurationModeFrequencyMins=0;RefreshFrequencyMins=4294967295;};",
        "ApplyAndMonitor Push false ContinueConfiguration 0 4294967295 false",
    ),
    (
        "instance of MSFT_DSCMetaConfiguration{Other=1;Other=2;};",
        "ApplyAndMonitor Push false ContinueConfiguration 15 30 false",
    ),
    (
        "instance of MSFT_DSCMetaConfiguration{ConfigurationMode=NULL;ConfigurationMode=\"ApplyOnly\";ConfigurationMode=NULL;};",
        "ApplyOnly Push false ContinueConfiguration 15 30 false",
    ),
    (
        "instance of MSFT_DSCMetaConfiguration{ConfigurationMode=\"\";};",
        "BadValue 0 ConfigurationMode",
    ),
    (
        "instance of MSFT_DSCMetaConfiguration{ConfigurationMode=1;};",
        "BadValue 0 ConfigurationMode",
    ),
    (
        "instance of MSFT_DSCMetaConfiguration{ConfigurationMode={\"ApplyOnly\"};};",
        "BadValue 0 ConfigurationMode",
    ),
    (
        "instance of MSFT_DSCMetaConfiguration{ConfigurationMode=\"ApplyOnly\";CONFIGURATIONmode=\"ApplyOnly\";};",
        "BadValue 0 CONFIGURATIONmode",
    ),
    (
        "instance of MSFT_DSCMetaConfiguration{CONFIGURATIONmode=\"Apply\";ConfigurationMode=\"ApplyOnly\";};",
        "BadValue 0 CONFIGURATIONmode",
    ),
    (
        "instance of MSFT_DSCMetaConfiguration{RefreshMode=\"Pull \";};",
        "BadValue 0 RefreshMode",
    ),
    (
        "instance of MSFT_DSCMetaConfiguration{RebootNodeIfNeeded=\"True\";};",
        "BadValue 0 RebootNodeIfNeeded",
    ),
    (
        "instance of MSFT_DSCMetaConfiguration{ActionAfterReboot=\"Stop\";};",
        "BadValue 0 ActionAfterReboot",
    ),
    (
        "instance of MSFT_DSCMetaConfiguration{ConfigurationModeFrequencyMins=-1;};",
        "BadValue 0 ConfigurationModeFrequencyMins",
    ),
    (
        "instance of MSFT_DSCMetaConfiguration{ConfigurationModeFrequencyMins=TRUE;};",
        "BadValue 0 ConfigurationModeFrequencyMins",
    ),
    (
        "instance of MSFT_DSCMetaConfiguration{RefreshFrequencyMins=4294967296;};",
        "BadValue 0 RefreshFrequencyMins",
    ),
    (
        "instance of MSFT_DSCMetaConfiguration{AllowModuleOverwrite=0;};",
        "BadValue 0 AllowModuleOverwrite",
    ),
    (
        "instance of MSFT_DSCMetaConfiguration{AllowModuleOverwrite=0;RefreshMode=1;};",
        "BadValue 0 RefreshMode",
    ),
    ("", "NoMeta"),
    (
        "instance of A{};instance of msft_DSCMETAConfiguration{};",
        "ApplyAndMonitor Push false ContinueConfiguration 15 30 false",
    ),
    (
        "instance of MSFT_DSCMetaConfiguration{};instance of A{};instance of MSFT_DSCMetaConfiguration{};",
        "TwoMetas 0 2",
    ),
    ("instance of A{", "Mof"),
];

// Resource managers with a URL, and what is answered.
pub const SITES: &[(&'static str, [&'static str; 3])] = &[
    (
        "instance of MSFT_WebResourceManager{ServerURL=\"http://pull:8080/PSDSCPullServer.svc/\";};",
        [
            USUAL,
            " server http://pull:8080/PSDSCPullServer.svc",
            " key ",
        ],
    ),
    (
        "instance of MSFT_WebResourceManager{ServerURL=\"HTTP://Pull.Example-1\";};",
        [USUAL, " server http://pull.example-1:80", " key "],
    ),
    (
        "instance of MSFT_WebResourceManager{ServerURL=\"hTTps://h\";};",
        [USUAL, " server https://h:443", " key "],
    ),
    (
        "instance of MSFT_WebResourceManager{ServerURL=\"https://h/\";};",
        [USUAL, " server https://h:443", " key "],
    ),
    (
        "instance of MSFT_WebResourceManager{ServerURL=\"https://h//\";};",
        [USUAL, " server https://h:443", " key "],
    ),
    (
        "instance of MSFT_WebResourceManager{ServerURL=\"http://h//a//b//\";};",
        [USUAL, " server http://h:80//a//b", " key "],
    ),
    (
        "instance of MSFT_WebResourceManager{ServerURL=\"http://h/A~!\";};",
        [USUAL, " server http://h:80/A~!", " key "],
    ),
    (
        "instance of MSFT_WebResourceManager{ServerURL=\"http://h:1\";};",
        [USUAL, " server http://h:1", " key "],
    ),
    (
        "instance of MSFT_WebResourceManager{ServerURL=\"http://h:65535/a\";};",
        [USUAL, " server http://h:65535/a", " key "],
    ),
    (
        "instance of MSFT_WebResourceManager{ServerURL=\"http://.:80\";};",
        [USUAL, " server http://.:80", " key "],
    ),
    (
        "instance of MSFT_WebResourceManager{ServerURL=\"http://h:0\";};",
        ["BadUrl 1", "", ""],
    ),
    (
        "instance of MSFT_WebResourceManager{ServerURL=\"http://h:65536\";};",
        ["BadUrl 1", "", ""],
    ),
    (
        "instance of MSFT_WebResourceManager{ServerURL=\"http://h:080\";};",
        ["BadUrl 1", "", ""],
    ),
    (
        "instance of MSFT_WebResourceManager{ServerURL=\"http://h:\";};",
        ["BadUrl 1", "", ""],
    ),
    (
        "instance of MSFT_WebResourceManager{ServerURL=\"http://h:80a\";};",
        ["BadUrl 1", "", ""],
    ),
    (
        "instance of MSFT_WebResourceManager{ServerURL=\"http://h:99999999999999999999\";};",
        ["BadUrl 1", "", ""],
    ),
    (
        "instance of MSFT_WebResourceManager{ServerURL=\"http://\";};",
        ["BadUrl 1", "", ""],
    ),
    (
        "instance of MSFT_WebResourceManager{ServerURL=\"http:///a\";};",
        ["BadUrl 1", "", ""],
    ),
    (
        "instance of MSFT_WebResourceManager{ServerURL=\"http://:80\";};",
        ["BadUrl 1", "", ""],
    ),
    (
        "instance of MSFT_WebResourceManager{ServerURL=\"http://u@h\";};",
        ["BadUrl 1", "", ""],
    ),
    (
        "instance of MSFT_WebResourceManager{ServerURL=\"http://h_1\";};",
        ["BadUrl 1", "", ""],
    ),
    (
        "instance of MSFT_WebResourceManager{ServerURL=\"http://h?a\";};",
        ["BadUrl 1", "", ""],
    ),
    (
        "instance of MSFT_WebResourceManager{ServerURL=\"http://h/?a\";};",
        ["BadUrl 1", "", ""],
    ),
    (
        "instance of MSFT_WebResourceManager{ServerURL=\"http://h/a#b\";};",
        ["BadUrl 1", "", ""],
    ),
    (
        "instance of MSFT_WebResourceManager{ServerURL=\"http://h/a b\";};",
        ["BadUrl 1", "", ""],
    ),
    (
        "instance of MSFT_WebResourceManager{ServerURL=\"ftp://h\";};",
        ["BadUrl 1", "", ""],
    ),
    (
        "instance of MSFT_WebResourceManager{ServerURL=\"\";};",
        ["BadUrl 1", "", ""],
    ),
];

// Texts after the settings, and what is answered after these.
pub const ACCEPTED: &[(&'static str, &'static str)] = &[
    (
        "instance of MSFT_WebDownloadManager as $D{ServerURL=\"http://H\";RegistrationKey=\"k\";ConfigurationNames={\"Web\",\"web\",\"App\"};};",
        " server http://h:80 key k pulls names Web App",
    ),
    (
        "instance of MSFT_WebDownloadManager{ServerURL=\"http://h\";ConfigurationNames=\"Web\";};",
        " server http://h:80 key  pulls names Web",
    ),
    (
        "instance of MSFT_WebReportManager{ServerURL=\"http://h\";RegistrationKey=\"r\";};",
        " server http://h:80 key r reports",
    ),
    (
        "instance of MSFT_WebReportManager{ServerURL=\"http://h/\";RegistrationKey=\"r\";};instance of MSFT_WebDownloadManager{ServerURL=\"http://H:80\";RegistrationKey=\"k\";};",
        " server http://h:80 key k pulls reports",
    ),
    (
        "instance of MSFT_WebReportManager{ServerURL=\"http://h\";RegistrationKey=\"r\";};instance of MSFT_WebDownloadManager{ServerURL=\"http://h\";RegistrationKey=\"\";};",
        " server http://h:80 key r pulls reports",
    ),
    (
        "instance of MSFT_WebResourceManager{ServerURL=\"http://h\";RegistrationKey=\"r\";};instance of MSFT_WebResourceManager{ServerURL=\"http://h\";};",
        " server http://h:80 key ",
    ),
    (
        "instance of MSFT_WebDownloadManager{ServerURL=\"http://h\";ConfigurationNames={\"a\",\"A\",\"3\",\"4\",\"5\",\"6\",\"7\",\"8\",\"9\"};};",
        " server http://h:80 key  pulls names a 3 4 5 6 7 8 9",
    ),
    (
        "instance of MSFT_PartialConfiguration{ResourceID=\"[PARTIALconfiguration]Base\";ExclusiveResources={\"File\",\"\"};RefreshMode=\"pull\";ConfigurationSource=1;};",
        " partial Base exclusive File  Pull",
    ),
    (
        "instance of MSFT_PartialConfiguration{ResourceID=\"[PartialConfiguration]A\";DependsOn=\"[PartialConfiguration]a\";};",
        " partial A depends a",
    ),
    (
        "instance of MSFT_PartialConfiguration{ResourceID=\"[PartialConfiguration]A\";DependsOn={\"[partialconfiguration]B\"};};instance of MSFT_PartialConfiguration{ResourceID=\"[PartialConfiguration]b\";};",
        " partial A depends B partial b",
    ),
];

// Texts after the settings, and what they are refused for.
pub const REFUSED: &[(&'static str, &'static str)] = &[
    (
        "instance of MSFT_WebReportManager{};instance of MSFT_WebReportManager{};instance of MSFT_WebDownloadManager{};instance of MSFT_WebDownloadManager{};",
        "TwoManagers 3 4",
    ),
    (
        "instance of MSFT_WebReportManager{};instance of MSFT_WebReportManager{};",
        "TwoManagers 1 2",
    ),
    (
        "instance of MSFT_WebReportManager{ServerURL=NULL;};",
        "BadUrl 1",
    ),
    (
        "instance of MSFT_WebReportManager{ServerURL=1;ServerURL=\"http://h\";};",
        "BadUrl 1",
    ),
    (
        "instance of MSFT_WebReportManager{ServerURL=\"http://h\";ServerUrl=\"http://h\";};",
        "BadValue 1 ServerUrl",
    ),
    (
        "instance of MSFT_WebResourceManager{ServerURL=\"http://h\";};instance of MSFT_WebResourceManager{ServerURL=\"https://h:80\";};",
        "TwoServers 1 2",
    ),
    (
        "instance of MSFT_WebResourceManager{ServerURL=\"http://h\";};instance of MSFT_WebReportManager{ServerURL=\"http://h/\";};instance of MSFT_WebDownloadManager{ServerURL=\"http://h/a\";};",
        "TwoServers 1 3",
    ),
    (
        "instance of MSFT_WebDownloadManager{ServerURL=\"http://h\";RegistrationKey=1;};",
        "BadValue 1 RegistrationKey",
    ),
    (
        "instance of MSFT_WebDownloadManager{ServerURL=\"http://h\";ConfigurationNames={\"a\",\"\"};};",
        "BadValue 1 ConfigurationNames",
    ),
    (
        "instance of MSFT_WebDownloadManager{ServerURL=\"http://h\";ConfigurationNames={\"a\",NULL};};",
        "BadValue 1 ConfigurationNames",
    ),
    (
        "instance of MSFT_WebDownloadManager{ServerURL=\"http://h\";ConfigurationNames={\"1\",\"2\",\"3\",\"4\",\"5\",\"6\",\"7\",\"8\",\"a\"};};",
        "TooMany Names",
    ),
    (
        "instance of MSFT_WebDownloadManager{ServerURL=\"http://h\";ConfigurationNames={\"1\",\"2\",\"3\",\"4\",\"5\",\"6\",\"7\",\"8\",\"a\"};RegistrationKey=1;};",
        "BadValue 1 RegistrationKey",
    ),
    (
        "instance of MSFT_PartialConfiguration{};",
        "BadValue 1 ResourceID",
    ),
    (
        "instance of MSFT_PartialConfiguration{ResourceID=\"[PartialConfiguration]\";};",
        "BadValue 1 ResourceID",
    ),
    (
        "instance of MSFT_PartialConfiguration{ResourceID=\"[Partial]A\";};",
        "BadValue 1 ResourceID",
    ),
    (
        "instance of MSFT_PartialConfiguration{ResourceID=\"[PartialConfiguration]A\";DependsOn={\"A\"};};",
        "BadValue 1 DependsOn",
    ),
    (
        "instance of MSFT_PartialConfiguration{ResourceID=\"[PartialConfiguration]A\";DependsOn={\"[PartialConfiguration]B\",\"[PartialConfiguration]C\"};};",
        "DependsUnknown 1 B",
    ),
    (
        "instance of MSFT_PartialConfiguration{ResourceID=\"[PartialConfiguration]A\";ExclusiveResources=1;};",
        "BadValue 1 ExclusiveResources",
    ),
    (
        "instance of MSFT_PartialConfiguration{ResourceID=\"[PartialConfiguration]A\";RefreshMode=\"x\";};",
        "BadValue 1 RefreshMode",
    ),
    (
        "instance of MSFT_PartialConfiguration{ResourceID=\"[PartialConfiguration]A\";};instance of B{};instance of MSFT_PartialConfiguration{ResourceID=\"[PartialConfiguration]a\";DependsOn=\"[PartialConfiguration]B\";};",
        "DuplicatePartial 1 3",
    ),
    (
        "instance of MSFT_PartialConfiguration{ResourceID=1;};instance of MSFT_WebReportManager{};",
        "BadUrl 2",
    ),
];

const URL: &str = "instance of MSFT_WebResourceManager{ServerURL=\"http://h:80/";

const SHORT: &str = "instance of MSFT_WebResourceManager{ServerURL=\"http://h/";

const NAME: &str =
    "instance of MSFT_WebDownloadManager{ServerURL=\"http://h\";ConfigurationNames=\"";

const CLAIM: &str =
    "instance of MSFT_PartialConfiguration{ResourceID=\"[PartialConfiguration]A\";ExclusiveResources=\"";

const END: &str = "\";};";

/// What stands before and after a text of one character, how often it stands there, and the refusal.
type Limit = (&'static str, char, u32, &'static str, &'static str);

// A URL has at most 2,048 bytes as it is written, a name 1 to 255 bytes, and a canonical text 262,144 bytes.
pub const LIMITS: &[Limit] = &[
    (URL, 'a', 2036, END, ""),
    (URL, 'a', 2037, END, "BadUrl"),
    (SHORT, 'a', 2036, END, ""),
    (SHORT, 'a', 2037, END, "BadUrl"),
    (NAME, 'a', 0, END, "BadValue"),
    (NAME, 'a', 255, END, ""),
    (NAME, 'a', 256, END, "BadValue"),
    (NAME, 'é', 127, END, ""),
    (NAME, 'é', 128, END, "BadValue"),
    (PARTIAL, 'a', 255, END, ""),
    (PARTIAL, 'a', 256, END, "BadValue"),
    (PARTIAL, 'é', 127, END, ""),
    (PARTIAL, 'é', 128, END, "BadValue"),
    (CLAIM, 'a', 261_737, END, ""),
    (CLAIM, 'a', 261_738, END, "TooMany Text"),
];

// Numbers of names, of partial configurations, and of the resources that each of them claims, and the refusal.
pub const SIZES: &[(u32, u32, u32, &'static str)] = &[
    (0, 0, 0, ""),
    (1, 1, 1, ""),
    (2, 2, 2, ""),
    (7, 7, 7, ""),
    (8, 0, 0, ""),
    (0, 8, 0, ""),
    (1, 1, 64, ""),
    (8, 8, 64, ""),
    (9, 0, 0, "TooMany Names"),
    (0, 9, 0, "TooMany Partials"),
    (9, 9, 0, "TooMany Partials"),
];

const A: &str = "\"[PartialConfiguration]a\"";

const B: &str = "\"[PartialConfiguration]B\"";

const C: &str = "\"[PartialConfiguration]C\"";

type Parts = &'static [(&'static str, &'static str)];

// Partial configurations with what each depends on, whether that is a cycle, and their places in order or in the cycle.
pub const ORDERS: &[(Parts, bool, &'static [u32])] = &[
    (&[], false, &[]),
    (&[("A", "")], false, &[0]),
    (&[("A", C), ("B", ""), ("C", "")], false, &[1, 2, 0]),
    (&[("A", B), ("b", "")], false, &[1, 0]),
    (&[("A", ""), ("B", A), ("C", B)], false, &[0, 1, 2]),
    (&[("A", A)], true, &[0]),
    (&[("A", B), ("B", A)], true, &[0, 1]),
    (&[("A", ""), ("B", C), ("C", B)], true, &[1, 2]),
];

/// Names, by which a partial configuration is found, with its name and its mode, or nothing, where the refresh mode is Push.
pub const NAMED: &[(&str, Option<(&str, RefreshMode)>)] = &[
    ("Pulled", Some(("Pulled", RefreshMode::Pull))),
    ("pushed", Some(("Pushed", RefreshMode::Push))),
    ("OFF", Some(("Off", RefreshMode::Disabled))),
    ("Plain", Some(("Plain", RefreshMode::Push))),
    ("Other", None),
    ("", None),
];

/// A partial configuration of each mode, and one without a mode.
pub const MODES: &str =
    "instance of MSFT_DSCMetaConfiguration{RefreshMode=\"Push\";};instance of MSFT_PartialConfiguration{ResourceID=\"[PartialConfiguration]Pulled\";RefreshMode=\"Pull\";};instance of MSFT_PartialConfiguration{ResourceID=\"[PartialConfiguration]Pushed\";RefreshMode=\"Push\";};instance of MSFT_PartialConfiguration{ResourceID=\"[PartialConfiguration]Off\";RefreshMode=\"Disabled\";};instance of MSFT_PartialConfiguration{ResourceID=\"[PartialConfiguration]Plain\";};";

pub const WRITTEN: &str =
    "instance of MSFT_PartialConfiguration{ResourceID=\"[partialconfiguration]Base\";DependsOn=\"[PartialConfiguration]App\";RefreshMode=\"pull\";};instance of MSFT_WebReportManager{ServerURL=\"HTTP://Pull/a/\";RegistrationKey=\"k\";};instance of MSFT_WebDownloadManager{ConfigurationNames={\"Web\",\"web\",\"\\x41\"};ServerURL=\"http://pull:80/a\";};instance of MSFT_DSCMetaConfiguration{RefreshMode=\"pull\";RebootNodeIfNeeded=true;};instance of MSFT_PartialConfiguration{ResourceID=\"[PartialConfiguration]App\";ExclusiveResources={\"File\",\"Log\"};};";

/// The canonical text of the same.
pub const CANONICAL: &str =
    "instance of MSFT_DSCMetaConfiguration\n{\n ConfigurationMode = \"ApplyAndMonitor\";\n RefreshMode = \"Pull\";\n RebootNodeIfNeeded = TRUE;\n ActionAfterReboot = \"ContinueConfiguration\";\n ConfigurationModeFrequencyMins = 15;\n RefreshFrequencyMins = 30;\n AllowModuleOverwrite = FALSE;\n};\ninstance of MSFT_WebDownloadManager\n{\n ServerURL = \"http://pull:80/a\";\n RegistrationKey = \"k\";\n ConfigurationNames = {\"Web\", \"A\"};\n};\ninstance of MSFT_WebReportManager\n{\n ServerURL = \"http://pull:80/a\";\n RegistrationKey = \"k\";\n};\ninstance of MSFT_PartialConfiguration\n{\n ResourceID = \"[PartialConfiguration]Base\";\n DependsOn = {\"[PartialConfiguration]App\"};\n ExclusiveResources = {};\n RefreshMode = \"Pull\";\n};\ninstance of MSFT_PartialConfiguration\n{\n ResourceID = \"[PartialConfiguration]App\";\n DependsOn = {};\n ExclusiveResources = {\"File\", \"Log\"};\n};\n";
